// The form of a line, by its text.
ghost use Rattle.std.specs.Prelude.{◌≡◌, ◌<◌, ◌≤◌, slice_index, MatchOption};
ghost use Rattle.tag.specs.Tags.{largest_tag};
ghost use Rattle.program_command.specs.Said.{said};
ghost use Rattle.program_command.specs.Commands.{largest_number, ticks, begin_of, form_of, push_of};

use crate::Command;
use machine::operation::Operation;
use machine::side::Side;
use text::is_text;
use text_scan::Line;

// 02: "ten digits with their zeros".
const TAG_WIDTH: usize = 10;

// 01: "a number above 4,294,967,295" is unread.
pub fn within_word(n: u64) -> Option<u32>
    ensures { MatchOption result (largest_number < n) (λ m. (m ≡ n) × (n ≤ largest_number)) }
{
    u32::try_from(n).ok()
}

// 01: "times (1 to 1,000)".
#[tactic(auto, unfolding(crate::specs::Commands::ticks))]
fn ticks_of(task: u32, hint: u32, times: u32) -> Option<Command>
    ensures { said result ≡ ticks task hint times }
{
    match times {
        1..=1_000 => Some(Command::Tick { task, hint, times }),
        _ => None,
    }
}

// The begin of pop, add or remove with this text.
// Kept: a chain of tests, and no match on the text. At arms of so many bytes the proof did not close, and a test of
// `is_text` compares eight bytes at once.
#[tactic(auto, unfolding(crate::specs::Commands::begin_of, crate::specs::Commands::begin_or))]
fn begin_of(text: &[u8], task: u32, low: u32) -> Option<Command>
    ensures { said result ≡ begin_of text.now task low }
{
    let (operation, side) = if is_text(text, b"(begin 0 (pop left 0))") {
        (Operation::Pop as u32, Side::Left as u32)
    } else if is_text(text, b"(begin 0 (pop right 0))") {
        (Operation::Pop as u32, Side::Right as u32)
    } else if is_text(text, b"(begin 0 (add left 0))") {
        (Operation::Add as u32, Side::Left as u32)
    } else if is_text(text, b"(begin 0 (add right 0))") {
        (Operation::Add as u32, Side::Right as u32)
    } else if is_text(text, b"(begin 0 (remove left 0))") {
        (Operation::Remove as u32, Side::Left as u32)
    } else if is_text(text, b"(begin 0 (remove right 0))") {
        (Operation::Remove as u32, Side::Right as u32)
    } else {
        return None;
    };
    Some(Command::Begin {
        task,
        operation,
        side,
        digit: 0,
        low,
    })
}

// The form other than a push with this text and these numbers.
#[tactic(auto, unfolding(crate::specs::Commands::form_of))]
pub fn form_of(text: &[u8], a: u32, b: u32, c: u32) -> Option<Command>
    ensures { said result ≡ form_of text.now a b c }
{
    if is_text(text, b"(tick 0 0 0)") {
        return ticks_of(a, b, c);
    }
    if is_text(text, b"(lane)") {
        return Some(Command::Lane);
    }
    if is_text(text, b"(start (slots 0) (tasks 0) (growth 0))") {
        return Some(Command::Start {
            slots: a,
            tasks: b,
            growth: c,
        });
    }
    begin_of(text, a, b)
}

// The push on this side, whose tag is the second number. 02: "a push of another width is `(unread)`, and 01's top number
// does not bind tags".
#[tactic(auto, unfolding(crate::specs::Commands::push_of))]
pub fn push_of(side: u32, line: &Line) -> Option<Command>
    requires { slice_index line.now.numbers 1 ≤ largest_tag }
    ensures { said result ≡ push_of side
        (slice_index line.now.numbers 0) (slice_index line.now.numbers 1) line.now.scan.width }
{
    let task = within_word(line.number(0))?;
    let tag = line.number(1);
    if !line.has_width(TAG_WIDTH) {
        return None;
    }
    Some(Command::Begin {
        task,
        operation: Operation::Push as u32,
        side,
        digit: tag::digit(tag),
        low: tag::low(tag),
    })
}
