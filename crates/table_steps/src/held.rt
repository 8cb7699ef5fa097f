// Which registers hold their nodes at which step.
ghost use Rattle.std.specs.Prelude.{◌≡◌};
ghost use Rattle.machine.specs.Steps.{step_of};
ghost use Rattle.machine.specs.Tasks.{Register};
ghost use Rattle.machine.specs.Registers.{holds};
ghost use Rattle.table_steps.specs.Bits.{is_in, Exact};

use crate::by_step::{ByStep, set_at};

// The bit of each register in an entry of the table.
const NOTHING: u8 = 0;

pub const A: u8 = 1;

pub const B: u8 = 2;

pub const C: u8 = 4;

pub const D: u8 = 8;

pub type Held = ByStep;

// By the step's number: the bits of the registers that hold there.
const HELD: Held = [
    NOTHING,
    NOTHING,
    D, // 2
    A + D, // 3
    NOTHING,
    A + B + D, // 5
    NOTHING,
    NOTHING,
    A + D, // 8
    NOTHING,
    NOTHING,
    NOTHING,
    NOTHING,
    NOTHING,
    NOTHING,
    D, // 15
    NOTHING,
    A + D, // 17
    A + D, // 18
    NOTHING,
    NOTHING,
    NOTHING,
    NOTHING,
    NOTHING,
    A + D, // 24
    A + B + D, // 25
    NOTHING,
    NOTHING,
    NOTHING, // 28
    NOTHING,
    NOTHING,
    D, // 31
    NOTHING,
    NOTHING,
    NOTHING,
    NOTHING,
    NOTHING,
    NOTHING,
    NOTHING,
    NOTHING, // 39
    A, // 40
    NOTHING,
    A + B, // 42
    NOTHING,
    NOTHING,
    NOTHING,
    NOTHING,
    NOTHING,
    A + B, // 48
    NOTHING,
    NOTHING,
    A + B, // 51
    NOTHING,
    NOTHING,
    NOTHING, // 54
    NOTHING,
    A, // 56
    NOTHING,
    A, // 58
    NOTHING,
    A, // 60
    NOTHING,
    A + B, // 62
    NOTHING,
    A + B, // 64
    NOTHING,
    NOTHING,
    D, // 67
    A + D, // 68
    A + D, // 69
    A + B + D, // 70
    NOTHING,
    A + C + D, // 72
    NOTHING,
    B, // 74
    NOTHING,
    NOTHING,
    A + B, // 77
    A + B, // 78
    A + B, // 79
    NOTHING,
    A, // 81
    A, // 82
];

// The table, to be lent to each task of a search: a constant is written out anew wherever its elements are read.
pub fn held() -> Held
    ensures { Exact result }
{
    HELD
}

// The bits of the registers that hold at a step; no step is past the table's end.
pub fn entry(held: &Held, step: u32) -> u8
    requires { Exact held.now }
    ensures { (r : Register) → is_in result r ≡ holds (step_of step) r }
{
    set_at(held, step)
}
