// Lines 54, 56, 58, 60, 62 and 64: a remove finds the link outside the hat where it may cut the chain, and cuts it.
#![tactic(auto, unfolding(line_parts::specs::Lent::line_of, machine::specs::Lines::act, machine::specs::Lines::dcas))]

ghost use Rattle.std.specs.Prelude.{◌≡◌, List, ℕ};
ghost use Rattle.machine.specs.Steps.{line54, line56, line58, line60, line62, line64};
ghost use Rattle.table_record.specs.Coded.{coded_task, task_meant};
ghost use Rattle.line_parts.specs.Lent.{Ready, Does, line_of, line_done, outcome_of};

use line_parts::ends;
use line_parts::ends::Done;
use machine::answer::Answer;
use machine::refusal::Refusal;
use table_layout::nodes;
use table_record::Task;
use table_values::Mark;

// 54: A = hat; goal 0 then 60, else 56.
pub fn line54(hat: u32, t: Task, goal: u32) -> Done
    requires { coded_task (task_meant t) ≡ t }
    ensures { (ns : List ℕ) (f : ℕ) → line_done ns result ≡ line_of line54 ns hat t goal f }
{
    let step = if goal == 0 { 60 } else { 56 };
    Done::take_hat(hat, t, step)
}

// 56: A.V is RX: "yes", else 58.
pub fn line56(ns: &[u32], hat: u32, t: Task) -> Result<Done, Refusal>
    requires { Ready ns.now t }
    ensures { Does line56 ns.now hat t (outcome_of ns.now hat t result) }
{
    let a = ends::node(t, Task::A)?;
    if Mark::X.is(nodes::value(ns, a), t.side) {
        return Ok(Done::answers(hat, Answer::Yes));
    }
    Ok(Done::next(hat, t, 58))
}

// 58: A = A.R; none "yes"; counted + 1; goal reached 60, else 56.
pub fn line58(ns: &[u32], hat: u32, t: Task, goal: u32) -> Result<Done, Refusal>
    requires { Ready ns.now t }
    ensures { (f : ℕ) → outcome_of ns.now hat t result ≡ line_of line58 ns.now hat t goal f }
{
    let a = ends::node(t, Task::A)?;
    let x = nodes::link(ns, t.side, a);
    if x == Task::NONE {
        return Ok(Done::answers(hat, Answer::Yes));
    }
    let counted = t.counted + 1;
    let step = if counted == goal { 60 } else { 56 };
    Ok(Done::next(hat, t.with(Task::A, x).counting(counted), step))
}

// 60: B = A.R; none "yes", else 62.
pub fn line60(ns: &[u32], hat: u32, t: Task) -> Result<Done, Refusal>
    requires { Ready ns.now t }
    ensures { Does line60 ns.now hat t (outcome_of ns.now hat t result) }
{
    let a = ends::node(t, Task::A)?;
    let b = nodes::link(ns, t.side, a);
    if b == Task::NONE {
        return Ok(Done::answers(hat, Answer::Yes));
    }
    Ok(Done::next(hat, t.with(Task::B, b), 62))
}

// 62: swap A.V RN to RX and B.V RN to RY; failed "no", else 64.
pub fn line62(ns: &mut [u32], hat: u32, t: Task) -> Result<Done, Refusal>
    requires { Ready ns.old t }
    ensures { Does line62 ns.old hat t (outcome_of ns.new hat t result) }
{
    let a = ends::node(t, Task::A)?;
    let b = ends::node(t, Task::B)?;
    let v = nodes::value(ns, a);
    let w = nodes::value(ns, b);
    if Mark::N.is(v, t.side) && Mark::N.is(w, t.side) {
        nodes::set_value(ns, a, Mark::X.of(t.side));
        nodes::set_value(ns, b, Mark::Y.of(t.side));
        return Ok(Done::next(hat, t, 64));
    }
    Ok(Done::answers(hat, Answer::No))
}

// 64: swap A.R B to none; 74 either way.
pub fn line64(ns: &mut [u32], hat: u32, t: Task) -> Result<Done, Refusal>
    requires { Ready ns.old t }
    ensures { Does line64 ns.old hat t (outcome_of ns.new hat t result) }
{
    let a = ends::node(t, Task::A)?;
    if nodes::link(ns, t.side, a) == t.registers[Task::B] {
        nodes::set_link(ns, t.side, a, Task::NONE);
    }
    Ok(Done::next(hat, t, 74))
}
