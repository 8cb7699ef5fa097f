// Lines 74, 77, 78, 79, 81 and 82: a remove breaks the chain that it cut off, link by link.
#![tactic(auto, unfolding(line_parts::specs::Lent::line_of, machine::specs::Lines::act, machine::specs::Lines::dcas))]

ghost use Rattle.machine.specs.Steps.{line74, line77, line78, line79, line81, line82};
ghost use Rattle.line_parts.specs.Lent.{Ready, Does, outcome_of};

use line_parts::ends;
use line_parts::ends::Done;
use machine::answer::Answer;
use machine::refusal::Refusal;
use table_layout::nodes;
use table_record::Task;
use table_values::Mark;

// 74: A = B, then B = A.R; none 82, else 77.
pub fn line74(ns: &[u32], hat: u32, t: Task) -> Result<Done, Refusal>
    requires { Ready ns.now t }
    ensures { Does line74 ns.now hat t (outcome_of ns.now hat t result) }
{
    let a = ends::node(t, Task::B)?;
    let b = nodes::link(ns, t.side, a);
    let step = if b == Task::NONE { 82 } else { 77 };
    Ok(Done::next(hat, t.with(Task::A, a).with(Task::B, b), step))
}

// 77: value = B.V; 78.
pub fn line77(ns: &[u32], hat: u32, t: Task) -> Result<Done, Refusal>
    requires { Ready ns.now t }
    ensures { Does line77 ns.now hat t (outcome_of ns.now hat t result) }
{
    let b = ends::node(t, Task::B)?;
    Ok(Done::next(hat, t.reading(nodes::value(ns, b)), 78))
}

// 78: swap B.V from value to RY; failed 77, done 79.
pub fn line78(ns: &mut [u32], hat: u32, t: Task) -> Result<Done, Refusal>
    requires { Ready ns.old t }
    ensures { Does line78 ns.old hat t (outcome_of ns.new hat t result) }
{
    let b = ends::node(t, Task::B)?;
    let v = nodes::value(ns, b);
    if table_values::same(v, t.value) {
        nodes::set_value(ns, b, Mark::Y.of(t.side));
        return Ok(Done::next(hat, t, 79));
    }
    Ok(Done::next(hat, t, 77))
}

// 79: A.R = none, A = B; 81.
pub fn line79(ns: &mut [u32], hat: u32, t: Task) -> Result<Done, Refusal>
    requires { Ready ns.old t }
    ensures { Does line79 ns.old hat t (outcome_of ns.new hat t result) }
{
    let a = ends::node(t, Task::A)?;
    nodes::set_link(ns, t.side, a, Task::NONE);
    Ok(Done::next(hat, t.with(Task::A, t.registers[Task::B]), 81))
}

// 81: B = A.R; none or value RX 82, else 77.
pub fn line81(ns: &[u32], hat: u32, t: Task) -> Result<Done, Refusal>
    requires { Ready ns.now t }
    ensures { Does line81 ns.now hat t (outcome_of ns.now hat t result) }
{
    let a = ends::node(t, Task::A)?;
    let b = nodes::link(ns, t.side, a);
    let last = b == Task::NONE || Mark::X.is(t.value, t.side);
    let step = if last { 82 } else { 77 };
    Ok(Done::next(hat, t.with(Task::B, b), step))
}

// 82: A.R = none; "yes".
pub fn line82(ns: &mut [u32], hat: u32, t: Task) -> Result<Done, Refusal>
    requires { Ready ns.old t }
    ensures { Does line82 ns.old hat t (outcome_of ns.new hat t result) }
{
    let a = ends::node(t, Task::A)?;
    nodes::set_link(ns, t.side, a, Task::NONE);
    Ok(Done::answers(hat, Answer::Yes))
}
