// What the definitions and the code share by value: the words of a value, the answers of the calls and their refusals.
#![tactic(auto)]

pub mod answer;
pub mod operation;
pub mod refusal;
pub mod side;

// A value as the table holds it, in a node or in a record: V and, since 2026-04, the leading digit that belongs to it.
// The argument of a call is held the same way. Only the definitions of values and the crates of the table's words name
// its words.
#[repr(C)]
#[derive(Clone, Copy, PartialEq, Eq)]
pub struct Stored {
    pub word: u32,
    pub digit: u32,
}

impl Stored {
    // 01's six marks.
    pub const LN: u32 = 1_000_000_001;

    pub const LX: u32 = 1_000_000_002;

    pub const LY: u32 = 1_000_000_003;

    pub const RN: u32 = 1_000_000_004;

    pub const RX: u32 = 1_000_000_005;

    pub const RY: u32 = 1_000_000_006;
}
