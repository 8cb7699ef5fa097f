// The answers of the calls as lines of text.
ghost use Rattle.std.specs.Prelude.{◌≡◌, ◌+◌, ◌*◌, ◌≤◌, length};
ghost use Rattle.text.specs.Writing.{Writes};
ghost use Rattle.program_print.specs.Lines.{reply_text, answer_text};
ghost use Rattle.program_print.specs.Outcomes.{replied, answered, reading_in, reading_text, reading_count};
ghost use Rattle.program_print.specs.Room.{short_room, room_for};

use crate::lines::{put_bag, put_lane, put_refused};
use machine::answer::Answer;
use text::Writer;

// What start and begin answer.
pub fn print_reply(reply: Result<(), u32>, writer: &mut Writer)
    requires { writer.old.at + short_room ≤ length writer.old.out.now }
    ensures written { Writes writer.old (reply_text (replied reply)) writer.new }
    ensures same_buffer { writer.new.out.ghost_name ≡ writer.old.out.ghost_name }
    ensures upper_bound { writer.new.at ≤ writer.old.at + short_room }
{
    match reply {
        Ok(()) => writer.put(b"(ok)\n"),
        Err(n) => put_refused(writer, n),
    }
}

// What a tick answers.
pub fn print_answer(ticked: Result<Answer, u32>, writer: &mut Writer)
    requires { writer.old.at + short_room ≤ length writer.old.out.now }
    ensures written { Writes writer.old (answer_text (answered ticked)) writer.new }
    ensures same_buffer { writer.new.out.ghost_name ≡ writer.old.out.ghost_name }
    ensures upper_bound { writer.new.at ≤ writer.old.at + short_room }
{
    match ticked {
        Ok(Answer::Going) => writer.put(b"(going)\n"),
        Ok(Answer::Pushed) => writer.put(b"(pushed)\n"),
        Ok(Answer::Bag(tag)) => put_bag(writer, tag),
        Ok(Answer::Empty) => writer.put(b"(empty)\n"),
        Ok(Answer::Full) => writer.put(b"(full)\n"),
        Ok(Answer::Yes) => writer.put(b"(yes)\n"),
        Ok(Answer::No) => writer.put(b"(no)\n"),
        Err(n) => put_refused(writer, n),
    }
}

// What reading a lane answers. The tags that it counted are the first of those in the words.
pub fn print_reading(read: Result<u32, u32>, words: &[u32], writer: &mut Writer)
    requires reading_in_bounds { 2 * reading_count (reading_in read) ≤ length words.now }
    requires room { writer.old.at + room_for (reading_count (reading_in read)) ≤ length writer.old.out.now }
    ensures written { Writes writer.old (reading_text (reading_in read) words.now) writer.new }
    ensures same_buffer { writer.new.out.ghost_name ≡ writer.old.out.ghost_name }
    ensures upper_bound { writer.new.at ≤ writer.old.at + room_for (reading_count (reading_in read)) }
{
    match read {
        Ok(bags) => put_lane(writer, &words[..2 * (bags as usize)]),
        Err(n) => put_refused(writer, n),
    }
}
