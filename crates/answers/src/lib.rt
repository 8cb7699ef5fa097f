// What a tick comes to by its numbers: the kind and what comes with it, of an answer and of a refusal; its three words
// put, and the answer that such words stand for.
#![tactic(auto)]

ghost use Rattle.std.specs.Prelude.{◌≡◌, ◌+◌, ◌≤◌, length};
ghost use Rattle.std.proofs.Math.Option.{some};
ghost use Rattle.std.proofs.lemmas.List.Edits.{sets};
ghost use Rattle.tag.specs.Tags.{largest_tag};
ghost use Rattle.machine.specs.Outcomes.Answer.{Answer as Meaning};
ghost use Rattle.machine.specs.Answers.{kind_of, payload_of, answer_length, answer_words, answer_of};
ghost use Rattle.machine.specs.Results.{said, answered};

use machine::answer::Answer;
use machine::refusal::Refusal;

// The kind of a refusal, which a run does not write, and that of a dispatch which finds no task busy.
const REFUSED: u32 = 7;

pub const IDLE: u32 = 8;

// The words that a run writes for a tick.
pub const ANSWER_WORDS: usize = 3;

// The kind of a tick's answer, or of its refusal.
pub fn kind(ticked: Result<Answer, Refusal>) -> u32
    ensures { result ≡ kind_of (answered ticked) }
{
    match ticked {
        Ok(answer) => answer.kind(),
        Err(_) => REFUSED,
    }
}

// The bag or 0. Of a refusal: its number.
pub fn payload(ticked: Result<Answer, Refusal>) -> u64
    ensures { result ≡ payload_of (answered ticked) }
{
    match ticked {
        Ok(answer) => answer.payload(),
        Err(refusal) => u64::from(refusal.number()),
    }
}

// 02: three words a tick: the kind, and the tag, digit first.
pub fn put_answer(answers: &mut [u32], at: usize, ticked: Result<Answer, Refusal>)
    requires { (payload_of (answered ticked) ≤ largest_tag) × (at + answer_length ≤ length answers.old) }
    ensures { answers.new ≡ sets answers.old at (answer_words (answered ticked)) }
{
    let tag = payload(ticked);
    answers[at] = kind(ticked);
    // Most ticks give no tag, and need no division.
    if tag == 0 {
        answers[at + 1] = 0;
        answers[at + 2] = 0;
        return;
    }
    answers[at + 1] = tag::digit(tag);
    answers[at + 2] = tag::low(tag);
}

// The answer that the words of a tick stand for.
pub fn answer_of(kind: u32, digit: u32, low: u32) -> Answer
    requires { (a : Meaning) × (answer_of kind digit low ≡ some a) }
    ensures { some (said result) ≡ answer_of kind digit low }
{
    match kind {
        0 => Answer::Going,
        1 => Answer::Pushed,
        2 => Answer::Bag(tag::number(digit, low)),
        3 => Answer::Empty,
        4 => Answer::Full,
        5 => Answer::Yes,
        _ => Answer::No,
    }
}
