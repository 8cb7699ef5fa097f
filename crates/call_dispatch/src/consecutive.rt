// Consecutive dispatches, on a table and with a hint that have passed the tests of refusals 3, 4 and 9.
ghost use Rattle.std.specs.Prelude.{◌≡◌};
ghost use Rattle.std.proofs.Math.Option.{none};
ghost use Rattle.machine.specs.Answers.{dispatch_goes_on};
ghost use Rattle.machine.specs.Calls.{dispatch_refusal, dispatches};
ghost use Rattle.machine.specs.Results.{dispatched_of};
ghost use Rattle.call_dispatch.specs.Chosen.{made_in};

use crate::turn::dispatch_on;
use machine::answer::Answer;
use machine::refusal::Refusal;

// Whether the tick that a dispatch made goes on.
fn goes_on(answer: Option<Answer>) -> bool
    ensures { result ≡ dispatch_goes_on (made_in answer) }
{
    matches!(answer, Some(Answer::Going))
}

// Until one does not go on, or so many. Kept beside consecutive ticks, which say why.
#[tactic(auto, using(crate::proofs::ConsecutiveDispatches::made))]
pub fn dispatches_on(table: &mut [u32], hint: u32, times: u32) -> Result<Option<Answer>, Refusal>
    requires { dispatch_refusal table.old hint ≡ none }
    ensures { dispatched_of result table.new ≡ dispatches times table.old hint }
{
    for _ in 0..times {
        let answer = dispatch_on(table, hint)?;
        if !goes_on(answer) {
            return Ok(answer);
        }
    }
    Ok(Some(Answer::Going))
}
