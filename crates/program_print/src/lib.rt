// The outcomes of the belt run as lines of text, written into a lent buffer.
#![tactic(auto)]

mod answers;
mod lines;

ghost use Rattle.std.specs.Prelude.{◌≡◌, ◌+◌, ◌*◌, ◌≤◌, length};
ghost use Rattle.text.specs.Writing.{Writes};
ghost use Rattle.program_print.specs.Outcomes.{count_of, text_of};
ghost use Rattle.program_print.specs.Room.{room_for};

use answers::{print_answer, print_reading, print_reply};
use machine::answer::Answer;
use text::Writer;

// What a line of the belt run comes to: the answer of a call, or that the line is not read. Kept: a refusal is its number
// here, since `print` prints each.
#[derive(Clone, Copy)]
pub enum CommandOutcome {
    Replied(Result<(), u32>),
    Ticked(Result<Answer, u32>),
    Lane(Result<u32, u32>),
    Unread,
}

// Writes the line of an outcome. The tags that a lane counted are the first of those in the words, two words for a tag.
pub fn print(outcome: CommandOutcome, words: &[u32], writer: &mut Writer)
    requires outcome_in_bounds { 2 * count_of outcome ≤ length words.now }
    requires room { writer.old.at + room_for (count_of outcome) ≤ length writer.old.out.now }
    ensures written { Writes writer.old (text_of outcome words.now) writer.new }
    ensures same_buffer { writer.new.out.ghost_name ≡ writer.old.out.ghost_name }
    ensures upper_bound { writer.new.at ≤ writer.old.at + room_for (count_of outcome) }
{
    match outcome {
        CommandOutcome::Replied(reply) => print_reply(reply, writer),
        CommandOutcome::Ticked(answer) => print_answer(answer, writer),
        CommandOutcome::Lane(reading) => print_reading(reading, words, writer),
        CommandOutcome::Unread => writer.put(b"(unread)\n"),
    }
}
