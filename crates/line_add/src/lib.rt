// Lines 15, 17, 18, 24 and 25: a chain of new nodes is joined to the lane's end.
#![tactic(auto, unfolding(line_parts::specs::Lent::line_of, machine::specs::Lines::act, machine::specs::Lines::dcas))]

ghost use Rattle.std.specs.Prelude.{◌≡◌, Ok};
ghost use Rattle.machine.specs.Steps.{line15, line17, line18, line24, line25};
ghost use Rattle.table_record.specs.Coded.{coded_task, task_meant};
ghost use Rattle.line_parts.specs.Lent.{Ready, Does, DoesAnywhere, outcome_of};

use line_parts::ends::Done;
use line_parts::{ends, shapes};
use machine::answer::Answer;
use machine::refusal::Refusal;
use table_layout::{nodes, sides};
use table_record::Task;
use table_values::Mark;

// 15: A = hat; 17.
pub fn line15(hat: u32, t: Task) -> Done
    requires { coded_task (task_meant t) ≡ t }
    ensures { DoesAnywhere line15 hat t (Ok result) }
{
    Done::take_hat(hat, t, 17)
}

// 17: value = A.V; RN 18, RY 67, RX 24, else 15.
pub fn line17(ns: &[u32], hat: u32, t: Task) -> Result<Done, Refusal>
    requires { Ready ns.now t }
    ensures { Does line17 ns.now hat t (outcome_of ns.now hat t result) }
{
    let a = ends::node(t, Task::A)?;
    let v = nodes::value(ns, a);
    let step = if Mark::N.is(v, t.side) {
        18
    } else if Mark::Y.is(v, t.side) {
        67
    } else if Mark::X.is(v, t.side) {
        24
    } else {
        15
    };
    Ok(Done::next(hat, t.reading(v), step))
}

// 18: A = A.R; none 15, else 17.
pub fn line18(ns: &[u32], hat: u32, t: Task) -> Result<Done, Refusal>
    requires { Ready ns.now t }
    ensures { Does line18 ns.now hat t (outcome_of ns.now hat t result) }
{
    shapes::follow(ns, hat, t, t.side, Task::A, Task::A, 15, 17)
}

// 24: D.L = A, B = A.R; 25.
pub fn line24(ns: &mut [u32], hat: u32, t: Task) -> Result<Done, Refusal>
    requires { Ready ns.old t }
    ensures { Does line24 ns.old hat t (outcome_of ns.new hat t result) }
{
    let a = ends::node(t, Task::A)?;
    let d = ends::node(t, Task::D)?;
    let b = nodes::link(ns, t.side, a);
    nodes::set_link(ns, sides::opposite(t.side), d, a);
    Ok(Done::next(hat, t.with(Task::B, b), 25))
}

// 25: swap A.R from B to D and A.V RX to RN; failed 15;
// done: add answers "yes", push sets D none, counted 0, goes to 2.
pub fn line25(ns: &mut [u32], hat: u32, t: Task) -> Result<Done, Refusal>
    requires { Ready ns.old t }
    ensures { Does line25 ns.old hat t (outcome_of ns.new hat t result) }
{
    let a = ends::node(t, Task::A)?;
    let outward = nodes::link(ns, t.side, a);
    let x = Mark::X.is(nodes::value(ns, a), t.side);
    if outward == t.registers[Task::B] && x {
        nodes::set_link(ns, t.side, a, t.registers[Task::D]);
        nodes::set_value(ns, a, Mark::N.of(t.side));
        if t.operation == Task::PUSH {
            return Ok(Done::next(hat, t.with(Task::D, Task::NONE).counting(0), 2));
        }
        return Ok(Done::answers(hat, Answer::Yes));
    }
    Ok(Done::next(hat, t, 15))
}
