// No code: what a table with no task in a call holds, and how many bags fit.
#![tactic(auto)]
