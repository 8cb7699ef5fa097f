// Which step belongs to which operation.
ghost use Rattle.std.specs.Prelude.{◌≡◌, ◌≤◌};
ghost use Rattle.machine.specs.Operations.{operation_of};
ghost use Rattle.machine.specs.Steps.{steps_of, is_step_in};
ghost use Rattle.table_steps.specs.Owners.{OwnersOk};

use crate::by_step::{ByStep, set_at};

// The bit of each operation in an entry of the table: two to the power of the operation's number.
const NO_CALL: u8 = 0;

const PUSH: u8 = 2;

const POP: u8 = 4;

const ADD: u8 = 8;

const REMOVE: u8 = 16;

pub type Owners = ByStep;

// 01's list, by the step's number: the bits of the operations that have the step. 01: push 2, 3, 5, 8 and every add
// step.
const OWNER: Owners = [
    NO_CALL,
    NO_CALL,
    PUSH, // 2
    PUSH, // 3
    NO_CALL,
    PUSH, // 5
    NO_CALL,
    NO_CALL,
    PUSH, // 8
    NO_CALL,
    NO_CALL,
    NO_CALL,
    NO_CALL,
    NO_CALL,
    NO_CALL,
    PUSH + ADD, // 15
    NO_CALL,
    PUSH + ADD, // 17
    PUSH + ADD, // 18
    NO_CALL,
    NO_CALL,
    NO_CALL,
    NO_CALL,
    NO_CALL,
    PUSH + ADD, // 24
    PUSH + ADD, // 25
    NO_CALL,
    NO_CALL,
    PUSH + ADD, // 28
    NO_CALL,
    NO_CALL,
    PUSH + ADD, // 31
    NO_CALL,
    NO_CALL,
    NO_CALL,
    NO_CALL,
    NO_CALL,
    NO_CALL,
    NO_CALL,
    POP, // 39
    POP, // 40
    NO_CALL,
    POP, // 42
    NO_CALL,
    NO_CALL,
    NO_CALL,
    NO_CALL,
    NO_CALL,
    POP, // 48
    NO_CALL,
    NO_CALL,
    POP, // 51
    NO_CALL,
    NO_CALL,
    REMOVE, // 54
    NO_CALL,
    REMOVE, // 56
    NO_CALL,
    REMOVE, // 58
    NO_CALL,
    REMOVE, // 60
    NO_CALL,
    REMOVE, // 62
    NO_CALL,
    REMOVE, // 64
    NO_CALL,
    NO_CALL,
    PUSH + ADD, // 67
    PUSH + ADD, // 68
    PUSH + ADD, // 69
    PUSH + ADD, // 70
    NO_CALL,
    PUSH + ADD, // 72
    NO_CALL,
    REMOVE, // 74
    NO_CALL,
    NO_CALL,
    REMOVE, // 77
    REMOVE, // 78
    REMOVE, // 79
    NO_CALL,
    REMOVE, // 81
    REMOVE, // 82
];

// The owners, to be lent to the test of each record: a constant is written out anew wherever its elements are read.
pub fn owners() -> Owners
    ensures { OwnersOk result }
{
    OWNER
}

// One bit tells, so that the test of a record makes one choice here.
pub fn is_step_of(owners: &Owners, operation: u32, step: u32) -> bool
    requires owners_ok { OwnersOk owners.now }
    requires le_operation { (1 ≤ operation) × (operation ≤ 4) }
    ensures { result ≡ is_step_in (steps_of (operation_of operation)) step }
{
    let set = set_at(owners, step) as u32;
    (set >> operation) % 2 == 1
}
