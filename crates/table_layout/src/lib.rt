// The words of the table: places, sides, operations, header, nodes and task records, read and written by value.
// Kept: the table is the caller's slice (the C interface), so each function takes it, and asks by its contract for the
// part that it reads; a struct round the slice would be made anew in each call and would say no more.
#![tactic(auto)]

pub mod header;
pub mod nodes;
pub mod operations;
pub mod places;
pub mod round;
pub mod sides;
pub mod table;
