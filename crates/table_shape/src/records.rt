// The test of a task's record, word by word. Kept: the sizes are given one by one, since each test takes others of them.
ghost use Rattle.std.specs.Prelude.{◌≡◌, ◌&&◌, ◌≤◌, ◌<◌, ltb, get_or};
ghost use Rattle.machine.specs.Sides.{side_of};
ghost use Rattle.machine.specs.Shape.{
  node_or_none,
  value_read_ok,
  counted_ok,
  busy_ok,
  record_ok,
};
ghost use Rattle.table_record.specs.Coded.{record_of};
ghost use Rattle.table_steps.specs.Owners.{OwnersOk};

use machine::Stored;
use table_layout::operations::{argument_ok, goal_of, is_idle};
use table_layout::sides::opposite;
use table_record::Task;
use table_steps::owners::{Owners, is_step_of};
use table_values::Mark;

// 01: a slot number below S, or 65,535 for none.
pub fn node_or_none(slots: u32, x: u32) -> bool
    ensures { result ≡ node_or_none slots x }
{
    (x < slots) | (x == Task::NONE)
}

// 01: LN or LX at 48, mirrored on the left: N and X of the side opposite to the right.
fn end_mark_ok(side: u32, v: Stored) -> bool
    requires { side < 2 }
    ensures { result ≡ value_read_ok (side_of side) 48 v }
{
    let far = opposite(side);
    v == Mark::N.of(far) || v == Mark::X.of(far)
}

// 01: counted is 0 at step 54, below the goal at steps 31, 56, 58 and at most the goal elsewhere; value read is as V
// may be (a bag at 51; LN or LX at 48). One choice by the step for both.
fn progress_ok(side: u32, step: u32, goal: u32, counted: u32, v: Stored) -> bool
    requires { side < 2 }
    ensures { result ≡ counted_ok step goal counted && value_read_ok (side_of side) step v }
{
    match step {
        54 => counted == 0 && table_values::value_ok(v),
        31 | 56 | 58 => counted < goal && table_values::value_ok(v),
        51 => counted <= goal && table_values::bag_ok(v),
        48 => counted <= goal && end_mark_ok(side, v),
        _ => counted <= goal && table_values::value_ok(v),
    }
}

// 01: a task's four registers A, B, C and D, slot numbers or none. 02: its lane, below the lanes.
fn registers_ok(slots: u32, lanes: u32, registers: [u32; 4], lane: u32) -> bool
    ensures { result
        ≡ node_or_none slots (get_or registers 0 0)
        && node_or_none slots (get_or registers 1 0)
        && node_or_none slots (get_or registers 2 0)
        && node_or_none slots (get_or registers 3 0)
        && ltb lane lanes }
{
    node_or_none(slots, registers[Task::A])
        & node_or_none(slots, registers[Task::B])
        & node_or_none(slots, registers[Task::C])
        & node_or_none(slots, registers[Task::D])
        & (lane < lanes)
}

// The record of a task that is in a call.
fn busy_ok(owners: &Owners, t: Task, slots: u32, growth: u32, lanes: u32) -> bool
    requires owners_ok { OwnersOk owners.now }
    requires le_operation { 1 ≤ t.operation }
    ensures { result ≡ busy_ok slots growth lanes (record_of t) }
{
    // 01: operation is 0 to 4, side is 0 or 1.
    if t.operation > Task::REMOVE {
        return false;
    }
    if t.side > 1 {
        return false;
    }
    let argument = t.argument;
    if !argument_ok(t.operation, argument) {
        return false;
    }
    let goal = goal_of(t.operation, growth, argument);
    let v = t.value;
    let registers = t.registers;
    is_step_of(owners, t.operation, t.step)
        && progress_ok(t.side, t.step, goal, t.counted, v)
        && registers_ok(slots, lanes, registers, t.lane)
}

// 01: an idle record is fresh; any other is that of a task in a call.
pub(crate) fn record_ok(owners: &Owners, t: Task, slots: u32, growth: u32, lanes: u32) -> bool
    requires { OwnersOk owners.now }
    ensures { result ≡ record_ok slots growth lanes (record_of t) }
{
    if is_idle(t.operation) {
        return t.is_fresh();
    }
    busy_ok(owners, t, slots, growth, lanes)
}
