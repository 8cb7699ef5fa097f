// The call tick, and consecutive ticks: any slice, any numbers. A refusal changes no lent word.
#![tactic(auto)]

mod consecutive;
pub mod pairs;

ghost use Rattle.std.specs.Prelude.{◌≡◌};
ghost use Rattle.machine.specs.Results.{ticked_of};
ghost use Rattle.machine.specs.Calls.{tick, ticks};

use consecutive::ticks_on;
use machine::answer::Answer;
use machine::refusal::Refusal;
use pairs::tick_on;
use table_shape::table_refusal;

// 01: refusals 3, 4, 5, 9, 10 and 11, then one tick of one task.
#[tactic(auto, using(crate::proofs::Laws::ConsecutiveTicks::passed))]
pub fn tick(table: &mut [u32], task: u32, hint: u32) -> Result<Answer, Refusal>
    ensures { ticked_of result table.new ≡ tick table.old task hint }
{
    table_refusal(table)?;
    tick_on(table, task, hint)
}

// Ticks of one task until an answer, a refusal, or so many; the last outcome. A tick keeps what the tests of refusals 3
// and 4 found, so they are made once; and not at all where no tick is asked for.
#[tactic(auto, using(crate::proofs::Laws::ConsecutiveTicks::passed))]
pub fn ticks(table: &mut [u32], task: u32, hint: u32, times: u32) -> Result<Answer, Refusal>
    ensures { ticked_of result table.new ≡ ticks times table.old task hint }
{
    if times == 0 {
        return Ok(Answer::Going);
    }
    table_refusal(table)?;
    ticks_on(table, task, hint, times)
}
