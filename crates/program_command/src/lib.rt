// The commands of the belt run: the form of a line is read off what is kept of it.
#![tactic(auto)]

mod forms;

ghost use Rattle.std.specs.Prelude.{◌≡◌};
ghost use Rattle.text_scan.specs.Kept.{ScanKept};
ghost use Rattle.program_command.specs.Said.{said};
ghost use Rattle.program_command.specs.KeptCommand.{kept_command};

use forms::{form_of, push_of, within_word};
use machine::side::Side;
use text::is_text;
use text_scan::Line;

// What a line says. The tag of a push is its leading digit and, as the argument, the nine digits below; the others have
// digit 0. Kept: operation and side are numbers, since `program_answer::answer` promises an answer to each.
#[derive(Clone, Copy)]
pub enum Command {
    Start {
        slots: u32,
        tasks: u32,
        growth: u32,
    },
    Begin {
        task: u32,
        operation: u32,
        side: u32,
        digit: u32,
        low: u32,
    },
    Tick {
        task: u32,
        hint: u32,
        times: u32,
    },
    Lane,
}

// The command of a scanned line, read off what is kept of it. A line that is no command is unread.
#[tactic(auto, unfolding(crate::specs::Commands::command_with, crate::specs::KeptCommand::kept_command))]
pub fn scanned_command(line: &Line) -> Option<Command>
    requires { ScanKept line.now }
    ensures { said result ≡ kept_command line.now }
{
    let text = line.text();
    if is_text(text, b"(begin 0 (push left 0))") {
        return push_of(Side::Left as u32, line);
    }
    if is_text(text, b"(begin 0 (push right 0))") {
        return push_of(Side::Right as u32, line);
    }
    form_of(
        text,
        within_word(line.number(0))?,
        within_word(line.number(1))?,
        within_word(line.number(2))?,
    )
}
