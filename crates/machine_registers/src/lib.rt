// No code: which registers hold their nodes at which step is exact, and what stands in the others is never seen.
#![tactic(auto)]
