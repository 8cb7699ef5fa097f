// Lines 67 to 70 and 72: a hat that stands on a spur is moved back to the lane.
#![tactic(auto, unfolding(line_parts::specs::Lent::line_of, machine::specs::Lines::act, machine::specs::Lines::dcas))]

ghost use Rattle.std.specs.Prelude.{◌≡◌, Ok};
ghost use Rattle.machine.specs.Steps.{line67, line68, line69, line70, line72};
ghost use Rattle.table_record.specs.Coded.{coded_task, task_meant};
ghost use Rattle.line_parts.specs.Lent.{Ready, Does, DoesAnywhere, outcome_of};

use line_parts::ends::Done;
use line_parts::{ends, shapes};
use machine::refusal::Refusal;
use table_layout::sides;
use table_record::Task;
use table_values::Mark;

// 67: A = hat; 68.
pub fn line67(hat: u32, t: Task) -> Done
    requires { coded_task (task_meant t) ≡ t }
    ensures { DoesAnywhere line67 hat t (Ok result) }
{
    Done::take_hat(hat, t, 68)
}

// 68: A.V is RY 69, else back.
pub fn line68(ns: &[u32], hat: u32, t: Task) -> Result<Done, Refusal>
    requires { Ready ns.now t }
    ensures { Does line68 ns.now hat t (outcome_of ns.now hat t result) }
{
    shapes::by_mark(ns, hat, t, Mark::Y.of(t.side), 69, ends::back(t))
}

// 69: B = A.L; 70.
pub fn line69(ns: &[u32], hat: u32, t: Task) -> Result<Done, Refusal>
    requires { Ready ns.now t }
    ensures { Does line69 ns.now hat t (outcome_of ns.now hat t result) }
{
    shapes::follow(
        ns,
        hat,
        t,
        sides::opposite(t.side),
        Task::A,
        Task::B,
        70,
        70,
    )
}

// 70: C = B.R; none back, else 72.
pub fn line70(ns: &[u32], hat: u32, t: Task) -> Result<Done, Refusal>
    requires { Ready ns.now t }
    ensures { Does line70 ns.now hat t (outcome_of ns.now hat t result) }
{
    shapes::follow(ns, hat, t, t.side, Task::B, Task::C, ends::back(t), 72)
}

// 72: swap hat A to C; back either way.
pub fn line72(hat: u32, t: Task) -> Result<Done, Refusal>
    requires { coded_task (task_meant t) ≡ t }
    ensures { DoesAnywhere line72 hat t result }
{
    let c = ends::node(t, Task::C)?;
    let swapped = if hat == t.registers[Task::A] { c } else { hat };
    Ok(Done::next(swapped, t, ends::back(t)))
}
