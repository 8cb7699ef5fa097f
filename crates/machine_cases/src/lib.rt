// No code: 01's starred cases as data, and one theorem over them.
#![tactic(auto)]
