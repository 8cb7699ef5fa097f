// The call dispatch, and consecutive dispatches: any slice, any numbers. A refusal and "idle" change no lent word.
#![tactic(auto)]

mod consecutive;
mod turn;

ghost use Rattle.std.specs.Prelude.{◌≡◌};
ghost use Rattle.machine.specs.Calls.{dispatch_refusal, dispatch, dispatches};
ghost use Rattle.machine.specs.Results.{refusal_in, dispatched_of};

use consecutive::dispatches_on;
use machine::answer::Answer;
use machine::refusal::Refusal;
use table_layout::header;
use table_shape::table_refusal;
use turn::dispatch_on;

// 02: refusals 3, 4 and 9.
#[tactic(auto, using(crate::proofs::DispatchRefusals::tested))]
#[inline(never)]
fn dispatch_refusal(table: &[u32], hint: u32) -> Result<(), Refusal>
    ensures { refusal_in result ≡ dispatch_refusal table.now hint }
{
    table_refusal(table)?;
    if header::slots(table) <= hint {
        return Err(Refusal::Hint);
    }
    Ok(())
}

// 02: after these, "idle", which is None, where no task is busy, or one tick of the next busy one, which 11 may refuse.
#[tactic(auto, using(crate::proofs::DispatchRefusals::passed))]
pub fn dispatch(table: &mut [u32], hint: u32) -> Result<Option<Answer>, Refusal>
    ensures { dispatched_of result table.new ≡ dispatch table.old hint }
{
    dispatch_refusal(table, hint)?;
    dispatch_on(table, hint)
}

// Dispatches until a call ends, every task is idle, a refusal, or so many; the last outcome. A dispatch keeps what the
// tests of refusals 3, 4 and 9 found, so they are made once; and not at all where none is asked for.
#[tactic(auto, using(crate::proofs::ConsecutiveDispatches::refused))]
pub fn dispatches(table: &mut [u32], hint: u32, times: u32) -> Result<Option<Answer>, Refusal>
    ensures { dispatched_of result table.new ≡ dispatches times table.old hint }
{
    if times == 0 {
        return Ok(Some(Answer::Going));
    }
    dispatch_refusal(table, hint)?;
    dispatches_on(table, hint, times)
}
