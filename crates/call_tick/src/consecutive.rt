// Consecutive ticks of one task, on a table that has passed the tests of refusals 3 and 4.
ghost use Rattle.std.specs.Prelude.{◌≡◌};
ghost use Rattle.machine.specs.Shape.{WellFormed};
ghost use Rattle.machine.specs.Calls.{ticks};
ghost use Rattle.machine.specs.Results.{ticked_of};

use crate::pairs::tick_on;
use machine::answer::Answer;
use machine::refusal::Refusal;

// Until one does not go on, or so many. Kept beside consecutive dispatches: one loop over a step would need a trait whose
// laws say all that both loops' proofs say, and be no shorter.
#[tactic(auto, using(crate::proofs::Laws::ConsecutiveTicks::made))]
pub fn ticks_on(table: &mut [u32], task: u32, hint: u32, times: u32) -> Result<Answer, Refusal>
    requires { WellFormed table.old }
    ensures { ticked_of result table.new ≡ ticks times table.old task hint }
{
    for _ in 0..times {
        let answer = tick_on(table, task, hint)?;
        if !answer.is_going() {
            return Ok(answer);
        }
    }
    Ok(Answer::Going)
}
