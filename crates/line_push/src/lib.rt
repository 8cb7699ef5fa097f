// Lines 2, 3, 5 and 8: a push at the hat.
#![tactic(auto, unfolding(line_parts::specs::Lent::line_of, machine::specs::Lines::act, machine::specs::Lines::dcas))]

ghost use Rattle.std.specs.Prelude.{◌≡◌, Ok};
ghost use Rattle.machine.specs.Steps.{line2, line3, line5, line8};
ghost use Rattle.table_record.specs.Coded.{coded_task, task_meant};
ghost use Rattle.line_parts.specs.Lent.{Ready, Does, DoesAnywhere, outcome_of};

use line_parts::ends::Done;
use line_parts::{ends, shapes};
use machine::answer::Answer;
use machine::refusal::Refusal;
use table_layout::nodes;
use table_record::Task;
use table_values::Mark;

// 2: A = hat; 3.
pub fn line2(hat: u32, t: Task) -> Done
    requires { coded_task (task_meant t) ≡ t }
    ensures { DoesAnywhere line2 hat t (Ok result) }
{
    Done::take_hat(hat, t, 3)
}

// 3: B = A.R; none 8, else 5.
pub fn line3(ns: &[u32], hat: u32, t: Task) -> Result<Done, Refusal>
    requires { Ready ns.now t }
    ensures { Does line3 ns.now hat t (outcome_of ns.now hat t result) }
{
    shapes::follow(ns, hat, t, t.side, Task::A, Task::B, 8, 5)
}

// 5: swap hat A to B and A.V RN to the argument; done "pushed", failed 8.
pub fn line5(ns: &mut [u32], hat: u32, t: Task) -> Result<Done, Refusal>
    requires { Ready ns.old t }
    ensures { Does line5 ns.old hat t (outcome_of ns.new hat t result) }
{
    let a = ends::node(t, Task::A)?;
    let b = ends::node(t, Task::B)?;
    let n = Mark::N.is(nodes::value(ns, a), t.side);
    if hat == a && n {
        nodes::set_value(ns, a, t.argument);
        return Ok(Done::answers(b, Answer::Pushed));
    }
    Ok(Done::next(hat, t, 8))
}

// 8: A.V is RX 28, else 67.
pub fn line8(ns: &[u32], hat: u32, t: Task) -> Result<Done, Refusal>
    requires { Ready ns.now t }
    ensures { Does line8 ns.now hat t (outcome_of ns.now hat t result) }
{
    shapes::by_mark(ns, hat, t, Mark::X.of(t.side), 28, 67)
}
