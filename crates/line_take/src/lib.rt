// Lines 28 and 31: a node is taken, if one was found, and a chain of new nodes begun with it or lengthened by it.
#![tactic(auto, unfolding(line_parts::specs::Lent::line_of, machine::specs::Lines::act, machine::specs::Lines::dcas))]

ghost use Rattle.std.specs.Prelude.{◌≡◌, ◌≢◌};
ghost use Rattle.machine.specs.Steps.{line28, line31};
ghost use Rattle.machine.specs.Tasks.{no_node};
ghost use Rattle.table_layout.specs.Words.{HoldsNode};
ghost use Rattle.line_parts.specs.Lent.{Ready, line_of, line_done, outcome_of};

use line_parts::ends;
use line_parts::ends::Done;
use machine::answer::Answer;
use machine::refusal::Refusal;
use table_layout::{nodes, sides};
use table_record::Task;
use table_values::Mark;

// Kept as a number: the node found, or none, as the search gives it and the table's words hold it.

// 28: take a free slot, links none, V RX; D = it; counted 0; goal 0 then 15, else 31.
// None free: push answers "full", add "no".
pub fn line28(ns: &mut [u32], hat: u32, t: Task, goal: u32, found: u32) -> Done
    requires { Ready ns.old t × (found ≢ no_node → HoldsNode ns.old found) }
    ensures { line_done ns.new result ≡ line_of line28 ns.old hat t goal found }
{
    if found == Task::NONE {
        if t.operation == Task::PUSH {
            return Done::answers(hat, Answer::Full);
        }
        return Done::answers(hat, Answer::No);
    }
    nodes::set_link(ns, t.side, found, Task::NONE);
    nodes::set_link(ns, sides::opposite(t.side), found, Task::NONE);
    nodes::set_value(ns, found, Mark::X.of(t.side));
    let step = if goal == 0 { 15 } else { 31 };
    Done::next(hat, t.with(Task::D, found).counting(0), step)
}

// 31: take a free slot N, V RN, N.L none, N.R = D, D.L = N, D = N, counted + 1; goal reached 15, else 31.
// None free: 15 with the chain so far.
pub fn line31(ns: &mut [u32], hat: u32, t: Task, goal: u32, found: u32) -> Result<Done, Refusal>
    requires { Ready ns.old t × (found ≢ no_node → HoldsNode ns.old found) }
    ensures { outcome_of ns.new hat t result ≡ line_of line31 ns.old hat t goal found }
{
    let d = ends::node(t, Task::D)?;
    if found == Task::NONE {
        return Ok(Done::next(hat, t, 15));
    }
    let inward = sides::opposite(t.side);
    nodes::set_value(ns, found, Mark::N.of(t.side));
    nodes::set_link(ns, inward, found, Task::NONE);
    nodes::set_link(ns, t.side, found, d);
    nodes::set_link(ns, inward, d, found);
    let count = t.counted + 1;
    let step = if count == goal { 15 } else { 31 };
    Ok(Done::next(hat, t.with(Task::D, found).counting(count), step))
}
