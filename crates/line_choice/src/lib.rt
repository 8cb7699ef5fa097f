// The line of the figure that a tick makes, by the step number at which its task stands: all lines but 28 and 31, which
// take a node.
#![tactic(auto, using(crate::proofs::StepChoice::line_at))]

ghost use Rattle.std.specs.Prelude.{◌≡◌, ℕ};
ghost use Rattle.machine.specs.Steps.{step_of};
ghost use Rattle.line_parts.specs.Lent.{Does, line_of, outcome_of};
ghost use Rattle.line_choice.specs.Groups.{
  ReadyIn,
  push_lines,
  add_lines,
  pop_lines,
  remove_lines,
  unspur_lines,
  break_lines,
  other_lines,
};

use line_parts::ends::Done;
use machine::refusal::Refusal;
use table_record::Task;

// A push at the hat.
fn push_line(ns: &mut [u32], hat: u32, t: Task) -> Result<Done, Refusal>
    requires { ReadyIn push_lines ns.old t }
    ensures { Does (step_of t.step) ns.old hat t (outcome_of ns.new hat t result) }
{
    match t.step {
        2 => Ok(line_push::line2(hat, t)),
        3 => line_push::line3(ns, hat, t),
        5 => line_push::line5(ns, hat, t),
        _ => line_push::line8(ns, hat, t),
    }
}

// A chain of new nodes, joined.
fn add_line(ns: &mut [u32], hat: u32, t: Task) -> Result<Done, Refusal>
    requires { ReadyIn add_lines ns.old t }
    ensures { Does (step_of t.step) ns.old hat t (outcome_of ns.new hat t result) }
{
    match t.step {
        15 => Ok(line_add::line15(hat, t)),
        17 => line_add::line17(ns, hat, t),
        18 => line_add::line18(ns, hat, t),
        24 => line_add::line24(ns, hat, t),
        _ => line_add::line25(ns, hat, t),
    }
}

// A pop at the hat.
fn pop_line(ns: &mut [u32], hat: u32, t: Task) -> Result<Done, Refusal>
    requires { ReadyIn pop_lines ns.old t }
    ensures { Does (step_of t.step) ns.old hat t (outcome_of ns.new hat t result) }
{
    match t.step {
        39 => Ok(line_pop::line39(hat, t)),
        40 => line_pop::line40(ns, hat, t),
        42 => line_pop::line42(ns, hat, t),
        48 => line_pop::line48(ns, hat, t),
        _ => line_pop::line51(ns, hat, t),
    }
}

// A remove, up to its cut.
fn remove_line(ns: &mut [u32], hat: u32, t: Task, goal: u32) -> Result<Done, Refusal>
    requires { ReadyIn remove_lines ns.old t }
    ensures { (f : ℕ) → outcome_of ns.new hat t result
        ≡ line_of (step_of t.step) ns.old hat t goal f }
{
    match t.step {
        54 => Ok(line_remove::line54(hat, t, goal)),
        56 => line_remove::line56(ns, hat, t),
        58 => line_remove::line58(ns, hat, t, goal),
        60 => line_remove::line60(ns, hat, t),
        62 => line_remove::line62(ns, hat, t),
        _ => line_remove::line64(ns, hat, t),
    }
}

// The hat brought back from a spur.
fn unspur_line(ns: &mut [u32], hat: u32, t: Task) -> Result<Done, Refusal>
    requires { ReadyIn unspur_lines ns.old t }
    ensures { Does (step_of t.step) ns.old hat t (outcome_of ns.new hat t result) }
{
    match t.step {
        67 => Ok(line_unspur::line67(hat, t)),
        68 => line_unspur::line68(ns, hat, t),
        69 => line_unspur::line69(ns, hat, t),
        70 => line_unspur::line70(ns, hat, t),
        _ => line_unspur::line72(hat, t),
    }
}

// The chain that was cut off, broken up.
fn break_line(ns: &mut [u32], hat: u32, t: Task) -> Result<Done, Refusal>
    requires { ReadyIn break_lines ns.old t }
    ensures { Does (step_of t.step) ns.old hat t (outcome_of ns.new hat t result) }
{
    match t.step {
        74 => line_break::line74(ns, hat, t),
        77 => line_break::line77(ns, hat, t),
        78 => line_break::line78(ns, hat, t),
        79 => line_break::line79(ns, hat, t),
        81 => line_break::line81(ns, hat, t),
        _ => line_break::line82(ns, hat, t),
    }
}

// 01: the tick decides by a match on the step number, which is the figure's line number, with ranges such as 67 to 70.
// Kept for that, in place of closures or of an enum of steps: the number is the table's word. The numbers of an arm are
// those of its lines, so that the compiler makes one table of this match and the ones above.
pub fn line(ns: &mut [u32], hat: u32, t: Task, goal: u32) -> Result<Done, Refusal>
    requires { ReadyIn other_lines ns.old t }
    ensures { (f : ℕ) → outcome_of ns.new hat t result
        ≡ line_of (step_of t.step) ns.old hat t goal f }
{
    match t.step {
        2..=3 | 5 | 8 => push_line(ns, hat, t),
        15 | 17..=18 | 24..=25 => add_line(ns, hat, t),
        39..=40 | 42 | 48 | 51 => pop_line(ns, hat, t),
        54 | 56 | 58 | 60 | 62 | 64 => remove_line(ns, hat, t, goal),
        67..=70 | 72 => unspur_line(ns, hat, t),
        _ => break_line(ns, hat, t),
    }
}
