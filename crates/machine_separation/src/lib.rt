// No code: lanes do not meet, and a tick leaves what the tasks of other lanes can see as it is.
#![tactic(auto)]
