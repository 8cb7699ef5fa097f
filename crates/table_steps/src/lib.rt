// What the code knows by a step's number: whose step it is, and which registers hold their nodes there.
#![tactic(auto)]

mod by_step;
pub mod held;
pub mod owners;
