// No code: that calls answer, a task alone within a bound, and some task under every schedule within another.
#![tactic(auto)]
