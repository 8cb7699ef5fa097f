// No code: what the window of request 2026-11 counts as lost is a tick whose compare did not match.
#![tactic(auto)]
