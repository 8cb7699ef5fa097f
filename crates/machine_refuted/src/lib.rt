// No code: machines that 01 names as wrong, and one theorem that calls tell each of them from the right one.
#![tactic(auto)]
