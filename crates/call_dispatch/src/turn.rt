// One dispatch on a table that has passed the tests of refusals 3 and 4: the task whose turn it is, and its tick.
ghost use Rattle.std.specs.Prelude.{◌≡◌, ◌<◌};
ghost use Rattle.machine.specs.Table.{task_count};
ghost use Rattle.machine.specs.Shape.{WellFormed};
ghost use Rattle.machine.specs.Calls.{is_busy_task, next_busy, dispatch_to, dispatch_on};
ghost use Rattle.machine.specs.Results.{dispatched_of};
ghost use Rattle.call_dispatch.specs.Chosen.{task_in};

use call_tick::pairs::tick_on;
use machine::answer::Answer;
use machine::refusal::Refusal;
use table_layout::header;
use table_layout::operations::is_idle;
use table_layout::round::following;
use table_layout::table::task;

// Whether task k is in a call.
#[tactic(auto, using(crate::proofs::DispatchTests::asks))]
fn is_busy(table: &[u32], k: u32) -> bool
    requires { WellFormed table.now × (k < task_count table.now) }
    ensures { result ≡ is_busy_task table.now k }
{
    !is_idle(task(table, k).operation)
}

// 02: the next busy task after the one last dispatched, going round.
#[tactic(auto, using(crate::proofs::DispatchTests::choices))]
fn next_busy(table: &[u32]) -> Option<u32>
    requires { WellFormed table.now }
    ensures { task_in result ≡ next_busy table.now }
{
    let n = header::tasks(table);
    let mut k = header::dispatched(table);
    for _ in 0..n {
        k = following(n, k);
        if is_busy(table, k) {
            return Some(k);
        }
    }
    None
}

// A tick of task k, which is then the one last dispatched.
#[tactic(auto, using(crate::proofs::DispatchTests::turns))]
fn dispatch_to(table: &mut [u32], k: u32, hint: u32) -> Result<Option<Answer>, Refusal>
    requires { WellFormed table.old }
    ensures { dispatched_of result table.new ≡ dispatch_to table.old k hint }
{
    let answer = tick_on(table, k, hint)?;
    header::set_dispatched(table, k);
    Ok(Some(answer))
}

// 02: "idle", which is None, where no task is busy, or one tick of the next busy one, which 11 may refuse.
#[tactic(auto, using(crate::proofs::DispatchTests::turns))]
pub fn dispatch_on(table: &mut [u32], hint: u32) -> Result<Option<Answer>, Refusal>
    requires { WellFormed table.old }
    ensures { dispatched_of result table.new ≡ dispatch_on table.old hint }
{
    match next_busy(table) {
        Some(k) => dispatch_to(table, k, hint),
        None => Ok(None),
    }
}
