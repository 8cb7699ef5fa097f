// The forms, a method each, over the table of a space.
ghost use Rattle.std.specs.Prelude.{◌≡◌, ◌*◌, ◌≤◌, length, take, drop};
ghost use Rattle.program_print.specs.Lines.{reply_text, answer_text};
ghost use Rattle.program_print.specs.Outcomes.{reading_text, reading_count};
ghost use Rattle.machine.specs.Calls as calls;
ghost use Rattle.machine.specs.Results.{replied, answered, reading_in, changed_of};
ghost use Rattle.program_answer.specs.Forms.{lanes_started, the_lane, start_command, begin_command, tick_command, lane_command};
ghost use Rattle.program_answer.specs.Space.{largest_table, answered_of, table_of, Changes};

use crate::{Bags, Space};
use call_begin::begin;
use call_read::read;
use call_start::start;
use call_tick::ticks;
use machine::answer::Answer;
use machine::refusal::Refusal;
use table_layout::places::table_length;
use table_values::of_words;

// 02: the program starts one lane, and all its forms are about that one.
const LANES: u32 = 1;

const LANE: u32 = 0;

// A start of the first words.
fn start_front(
    words: &mut [u32],
    need: usize,
    slots: u32,
    tasks: u32,
    growth: u32,
) -> Result<(), Refusal>
    requires { need ≤ length words.old }
    ensures done { changed_of result (take need words.new)
        ≡ calls.start (take need words.old) slots tasks growth lanes_started }
    ensures others { drop need words.new ≡ drop need words.old }
{
    start(&mut words[..need], slots, tasks, growth, LANES)
}

impl Space<'_> {
    // A start: the table takes as many words as its sizes ask for.
    pub(crate) fn start_command(
        &mut self,
        slots: u32,
        tasks: u32,
        growth: u32,
    ) -> Result<(), Refusal>
        requires { (self.old.len ≤ length self.old.words.now) × (largest_table ≤ length self.old.words.now) }
        ensures changes { Changes self.old self.new (reply_text (replied result))
            (start_command (table_of self.old) slots tasks growth) }
        ensures same_words { self.new.words.ghost_name ≡ self.old.words.ghost_name }
    {
        let need = table_length(slots, tasks);
        // No sizes in range ask for more than there is.
        if self.words.len() < need {
            return Err(Refusal::Sizes);
        }
        start_front(self.words, need, slots, tasks, growth)?;
        self.len = need;
        Ok(())
    }

    // A begin.
    pub(crate) fn begin_command(
        &mut self,
        task: u32,
        operation: u32,
        side: u32,
        digit: u32,
        low: u32,
    ) -> Result<(), Refusal>
        requires { self.old.len ≤ length self.old.words.now }
        ensures changes { Changes self.old self.new (reply_text (replied result))
            (begin_command (table_of self.old) task operation side digit low) }
        ensures same_words { self.new.words.ghost_name ≡ self.old.words.ghost_name }
    {
        begin(
            &mut self.words[..self.len],
            task,
            LANE,
            operation,
            side,
            of_words(digit, low),
        )
    }

    // Ticks.
    pub(crate) fn tick_command(
        &mut self,
        task: u32,
        hint: u32,
        times: u32,
    ) -> Result<Answer, Refusal>
        requires { self.old.len ≤ length self.old.words.now }
        ensures changes { Changes self.old self.new (answer_text (answered result)) (tick_command times (table_of self.old) task hint) }
        ensures same_words { self.new.words.ghost_name ≡ self.old.words.ghost_name }
    {
        ticks(&mut self.words[..self.len], task, hint, times)
    }

    // A look at the lane: its bags are the first of their places.
    pub(crate) fn lane_command(&self, bags: &mut Bags) -> Result<u32, Refusal>
        requires { self.now.len ≤ length self.now.words.now }
        ensures answers { answered_of (reading_text (reading_in result) bags.new) (table_of self.now) ≡ lane_command (table_of self.now) }
        ensures result_in_bounds { 2 * reading_count (reading_in result) ≤ length bags.new }
        ensures bags_after { bags.new ≡ (calls.read (table_of self.now) the_lane bags.old).out }
    {
        read(&self.words[..self.len], LANE, bags)
    }
}
