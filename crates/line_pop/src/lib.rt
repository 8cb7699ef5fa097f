// Lines 39, 40, 42, 48 and 51: a pop at the hat.
#![tactic(auto, unfolding(line_parts::specs::Lent::line_of, machine::specs::Lines::act, machine::specs::Lines::dcas))]

ghost use Rattle.std.specs.Prelude.{◌≡◌, true, Ok};
ghost use Rattle.machine.specs.Sides.{side_of};
ghost use Rattle.machine.specs.Values.{decode, bag_ok, value_ok};
ghost use Rattle.machine.specs.Steps.{step_number, line39, line40, line42, line48, line51};
ghost use Rattle.machine.specs.Lines.{after_read};
ghost use Rattle.table_record.specs.Coded.{coded_task, task_meant};
ghost use Rattle.line_parts.specs.Lent.{Ready, Does, DoesAnywhere, outcome_of};

use line_parts::ends::Done;
use line_parts::{ends, shapes};
use machine::Stored;
use machine::answer::Answer;
use machine::refusal::Refusal;
use table_layout::{nodes, sides};
use table_record::Task;
use table_values::Mark;

// 39: A = hat; 40.
pub fn line39(hat: u32, t: Task) -> Done
    requires { coded_task (task_meant t) ≡ t }
    ensures { DoesAnywhere line39 hat t (Ok result) }
{
    Done::take_hat(hat, t, 40)
}

// 40: B = A.L; none 39, else 42.
pub fn line40(ns: &[u32], hat: u32, t: Task) -> Result<Done, Refusal>
    requires { Ready ns.now t }
    ensures { Does line40 ns.now hat t (outcome_of ns.now hat t result) }
{
    shapes::follow(
        ns,
        hat,
        t,
        sides::opposite(t.side),
        Task::A,
        Task::B,
        39,
        42,
    )
}

// 42: value = B.V; a bag 51, LN or LX 48, else 39.
pub fn line42(ns: &[u32], hat: u32, t: Task) -> Result<Done, Refusal>
    requires { Ready ns.now t }
    ensures { Does line42 ns.now hat t (outcome_of ns.now hat t result) }
{
    let b = ends::node(t, Task::B)?;
    let v = nodes::value(ns, b);
    Ok(Done::next(hat, t.reading(v), after_read(sides::opposite(t.side), v)))
}

// The step after 42 by the value read; o is the opposite side.
fn after_read(o: u32, v: Stored) -> u32
    requires { value_ok v ≡ true }
    ensures { result ≡ step_number (after_read (side_of o) (decode v)) }
{
    if table_values::bag_ok(v) {
        51
    } else if Mark::N.is(v, o) || Mark::X.is(v, o) {
        48
    } else {
        39
    }
}

// 48: hat equals A and B.V equals value: "empty", else 39.
pub fn line48(ns: &[u32], hat: u32, t: Task) -> Result<Done, Refusal>
    requires { Ready ns.now t }
    ensures { Does line48 ns.now hat t (outcome_of ns.now hat t result) }
{
    let b = ends::node(t, Task::B)?;
    let v = nodes::value(ns, b);
    let as_read = table_values::same(v, t.value);
    if hat == t.registers[Task::A] && as_read {
        return Ok(Done::answers(hat, Answer::Empty));
    }
    Ok(Done::next(hat, t, 39))
}

// 51: swap hat A to B and B.V from value to RN; done answers the bag, failed 39.
pub fn line51(ns: &mut [u32], hat: u32, t: Task) -> Result<Done, Refusal>
    requires { Ready ns.old t × (bag_ok t.value ≡ true) }
    ensures { Does line51 ns.old hat t (outcome_of ns.new hat t result) }
{
    let b = ends::node(t, Task::B)?;
    let v = nodes::value(ns, b);
    let unchanged = table_values::same(v, t.value);
    if hat == t.registers[Task::A] && unchanged {
        nodes::set_value(ns, b, Mark::N.of(t.side));
        return Ok(Done::answers(b, Answer::Bag(table_values::number(t.value))));
    }
    Ok(Done::next(hat, t, 39))
}
