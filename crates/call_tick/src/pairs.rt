// The ticks of a list of (task, hint) pairs on a table that has passed the tests of refusals 3 and 4. All ticks are
// made in this one loop, a single tick as a list of one pair: the compiler then sets the whole tick into the loop, and
// no call stands between two ticks of a run.
ghost use Rattle.std.specs.Prelude.{◌≡◌, ◌*◌, ◌<◌, length, MatchOption};
ghost use Rattle.machine.specs.Shape.{WellFormed};
ghost use Rattle.machine.specs.Calls.{tick_on, run_on};
ghost use Rattle.machine.specs.Results.{ticked_of, run_done_of};
ghost use Rattle.call_tick.specs.Runs.{MayRun};

use answers::{ANSWER_WORDS, answer_of, put_answer};
use machine::answer::{Answer, Ran};
use machine::refusal::Refusal;
use tick_once::tick_once;

// The ticks of a list that has passed all tests.
// 01: stops at the first refused tick.
// Kept: what is left of the list is a slice that moves on. Over `chunks_exact(2)` a tick that takes a node took 1.1 to
// 1.3 times its time, and a single tick 1.1 times.
pub fn run_on(table: &mut [u32], list: &[u32], answers: &mut [u32]) -> Ran
    requires { MayRun table.old list.now answers.old }
    ensures runs { run_done_of result table.new answers.new
        ≡ run_on list.now table.old answers.old }
    ensures stopped { MatchOption result.refusal (2 * result.made ≡ length list.now)
        (λ _. 2 * result.made < length list.now) }
{
    let mut rest = list;
    let mut made = 0;
    while 0 < rest.len() {
        match tick_once(table, rest[0], rest[1]) {
            Err(refusal) => {
                return Ran {
                    made,
                    refusal: Some(refusal),
                };
            }
            Ok(answer) => put_answer(answers, ANSWER_WORDS * (made as usize), Ok(answer)),
        }
        rest = &rest[2..];
        made += 1;
    }
    Ran {
        made,
        refusal: None,
    }
}

// One tick.
pub fn tick_on(table: &mut [u32], task: u32, hint: u32) -> Result<Answer, Refusal>
    requires { WellFormed table.old }
    ensures { ticked_of result table.new ≡ tick_on table.old task hint }
{
    let pair = [task, hint];
    let mut words = [0u32; ANSWER_WORDS];
    match run_on(table, &pair, &mut words).refusal {
        Some(refusal) => Err(refusal),
        None => Ok(answer_of(words[0], words[1], words[2])),
    }
}
