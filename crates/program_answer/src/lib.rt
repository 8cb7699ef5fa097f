// A command of the belt run answered over the program's table: the first words of one lent space.
#![tactic(auto)]

mod forms;

ghost use Rattle.std.specs.Prelude.{◌≡◌, ◌*◌, ◌≤◌, length};
ghost use Rattle.program_command.specs.Said.{said};
ghost use Rattle.program_print.specs.Outcomes.{text_of, count_of};
ghost use Rattle.program_answer.specs.Run.{answer, bags_after};
ghost use Rattle.program_answer.specs.Space.{largest_table, table_of, Changes, numbered};

use machine::refusal::Refusal;
use program_command::Command;
use program_print::CommandOutcome;

pub const BAG_WORDS: usize = 2_048;

// Places for the bags of a lane, two words each: no table has more than 1,024 nodes.
pub type Bags = [u32; BAG_WORDS];

// The words that the program is lent, and how many of them, from the first on, are its table.
#[derive(Drop)]
pub struct Space<'a> {
    pub words: &'a mut [u32],
    pub len: usize,
}

// An answer with its refusal by number.
fn numbered<T: Copy>(answer: Result<T, Refusal>) -> Result<T, u32>
    ensures { result ≡ numbered answer }
{
    match answer {
        Ok(t) => Ok(t),
        Err(refusal) => Err(refusal.number()),
    }
}

// Does what a command says; a line that says none is unread. The bags of a lane are the first of their places, whatever
// stood there before.
#[tactic(auto, unfolding(crate::specs::Run::answer))]
pub fn answer(command: Option<Command>, space: &mut Space, bags: &mut Bags) -> CommandOutcome
    requires { (space.old.len ≤ length space.old.words.now) × (largest_table ≤ length space.old.words.now) }
    ensures changes { Changes space.old space.new (text_of result bags.new) (answer (said command) (table_of space.old)) }
    ensures same_words { space.new.words.ghost_name ≡ space.old.words.ghost_name }
    ensures outcome_in_bounds { 2 * count_of result ≤ length bags.new }
    ensures bags_after { bags.new ≡ bags_after (said command) (table_of space.old) bags.old }
{
    match command {
        Some(
            Command::Start {
                slots,
                tasks,
                growth,
            },
        ) => CommandOutcome::Replied(numbered(space.start_command(slots, tasks, growth))),
        Some(
            Command::Begin {
                task,
                operation,
                side,
                digit,
                low,
            },
        ) => CommandOutcome::Replied(numbered(space.begin_command(
            task, operation, side, digit, low,
        ))),
        Some(Command::Tick { task, hint, times }) => CommandOutcome::Ticked(numbered(
            space.tick_command(task, hint, times),
        )),
        Some(Command::Lane) => CommandOutcome::Lane(numbered(space.lane_command(bags))),
        None => CommandOutcome::Unread,
    }
}
