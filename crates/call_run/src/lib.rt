// The calls run and panel: any slices. A refusal changes no lent word, but for the ticks made before it.
#![tactic(auto)]

ghost use Rattle.std.specs.Prelude.{◌≡◌};
ghost use Rattle.std.proofs.Math.Option.{none};
ghost use Rattle.machine.specs.Calls.{
  list_refusal,
  room_refusal,
  run_refusal,
  panel_refusal,
  tested,
  run,
  panel,
};
ghost use Rattle.machine.specs.Results.{refusal_in, run_done_of};
ghost use Rattle.call_tick.specs.Runs.{MayRun};

use answers::ANSWER_WORDS;
use call_tick::pairs::run_on;
use machine::answer::Ran;
use machine::refusal::Refusal;
use table_shape::table_refusal;

// The tests that a run and the panel's list begin with: 3 and 4, and 13.
#[tactic(auto, using(crate::proofs::RunTests::lists))]
fn list_refusal(table: &[u32], list: &[u32]) -> Result<(), Refusal>
    ensures { refusal_in result ≡ list_refusal table.now list.now none }
{
    table_refusal(table)?;
    // 01: list of odd length or over 8,192 words.
    if list.len() % 2 != 0 {
        return Err(Refusal::List);
    }
    if 8_192 < list.len() {
        return Err(Refusal::List);
    }
    Ok(())
}

// The test that both end with: 14.
#[tactic(auto, using(crate::proofs::RunTests::rooms))]
fn room_refusal(list: &[u32], answers: &[u32]) -> Result<(), Refusal>
    ensures { refusal_in result ≡ room_refusal list.now answers.now }
{
    // 02: answer slice under 3 words a tick.
    if answers.len() < ANSWER_WORDS * (list.len() / 2) {
        return Err(Refusal::Answers);
    }
    Ok(())
}

// 01: refusals 3, 4, 13 and 14.
#[tactic(auto, using(crate::proofs::RunTests::runs))]
fn run_refusal(table: &[u32], list: &[u32], answers: &[u32]) -> Result<(), Refusal>
    ensures { refusal_in result ≡ run_refusal table.now list.now answers.now }
{
    list_refusal(table, list)?;
    room_refusal(list, answers)
}

// 2026-01: refusals 3, 4, 13, 15 and 14.
#[tactic(auto, using(crate::proofs::RunTests::panels))]
fn panel_refusal(table: &[u32], list: &[u32], answers: &[u32]) -> Result<(), Refusal>
    ensures { refusal_in result ≡ panel_refusal table.now list.now answers.now }
{
    list_refusal(table, list)?;
    // 02: panel list over 64 words.
    if 64 < list.len() {
        return Err(Refusal::Panel);
    }
    room_refusal(list, answers)
}

// What follows the tests: the refusal that they gave, or the ticks of the list. Kept as three slices, here and in
// `run_on`: the calls are lent them so, and two functions pass them on, so that a struct of them would be taken apart
// where it is made.
fn tested(test: Result<(), Refusal>, table: &mut [u32], list: &[u32], answers: &mut [u32]) -> Ran
    requires { refusal_in test ≡ none → MayRun table.old list.now answers.old }
    ensures { run_done_of result table.new answers.new
        ≡ tested (refusal_in test) table.old list.now answers.old }
{
    match test {
        Err(refusal) => Ran {
            made: 0,
            refusal: Some(refusal),
        },
        Ok(()) => run_on(table, list, answers),
    }
}

// 01: the tests, then the ticks of a list of (task, hint) pairs up to the first refused one.
#[tactic(auto, using(crate::proofs::RunTests::calls))]
pub fn run(table: &mut [u32], list: &[u32], answers: &mut [u32]) -> Ran
    ensures { run_done_of result table.new answers.new
        ≡ run table.old list.now answers.old }
{
    let test = run_refusal(table, list, answers);
    tested(test, table, list, answers)
}

// 2026-01: the panel's tests, then the same.
#[tactic(auto, using(crate::proofs::RunTests::calls))]
pub fn panel(table: &mut [u32], list: &[u32], answers: &mut [u32]) -> Ran
    ensures { run_done_of result table.new answers.new
        ≡ panel table.old list.now answers.old }
{
    let test = panel_refusal(table, list, answers);
    tested(test, table, list, answers)
}
