// A session of the belt run: its input comes in chunks, cut anywhere, and each line is answered where it ends.
#![tactic(auto)]

ghost use Rattle.std.specs.Prelude.{◌≡◌, ◌+◌, ◌≤◌, length};
ghost use Rattle.std.proofs.Math.Seq.{slice};
ghost use Rattle.text_scan.specs.Kept.{no_text, text_places};
ghost use Rattle.program_answer.specs.Space.{largest_table};
ghost use Rattle.program_stream.specs.Session.{take_bytes, end_input, at_first, meant};
ghost use Rattle.program_stream.specs.Carried.{
  loan,
  end_line_in,
  lent,
  lent_at_first,
  Serves,
  InOrder,
  Holds,
  line_room,
  Makes,
  Onward,
};

use program_answer::{Bags, Space, answer};
use program_command::scanned_command;
use program_print::print;
use text::Writer;
use text_scan::Line;

// The most bytes that one line prints: a lane of 1,024 bags.
pub const LINE_ROOM: usize = 11_285;

// A session, from chunk to chunk: the space of words that it is lent, with its table; places for the bags of a lane,
// which are scratch; the line so far, and whether it has a byte.
// Kept: that it is in order is a clause, `InOrder`, and no fact of the type, since a session begins (`new`) whatever the
// length of its space.
#[derive(Drop)]
pub struct Session<'a> {
    pub space: Space<'a>,
    pub bags: &'a mut Bags,
    pub line: Line,
    pub begun: bool,
}

// How far a chunk is served: the place after the bytes taken, and the place after what is printed.
#[derive(Clone, Copy)]
pub struct Served {
    pub from: usize,
    pub at: usize,
}

impl<'a> Session<'a> {
    // The start of a session: no table, and no line. What stands in the places for the bags is of no account.
    pub fn new(words: &'a mut [u32], bags: &'a mut Bags) -> Session<'a>
        ensures same_space { result.space.words.ghost_name ≡ words.entry.ghost_name }
        ensures fresh { loan result ≡ lent_at_first words.old no_text }
        ensures in_order { largest_table ≤ length words.old → InOrder (loan result) }
        ensures holds { Holds (loan result) at_first }
    {
        Session {
            space: Space { words, len: 0 },
            bags,
            line: Line::new(),
            begun: false,
        }
    }

    // Begins again over the same words: no table, and no line, whatever stands in the array of its text.
    pub fn restart(&mut self)
        ensures same_space { self.new.space.words.ghost_name ≡ self.old.space.words.ghost_name }
        ensures fresh { loan self.new ≡ lent_at_first self.old.space.words.now self.old.line.text }
        ensures in_order { largest_table ≤ length self.old.space.words.now
            → length self.old.line.text ≡ text_places → InOrder (loan self.new) }
        ensures holds { Holds (loan self.new) at_first }
    {
        self.space.len = 0;
        self.line.clear();
        self.begun = false;
    }

    // Answers the line so far, at a place of the output, and begins the next. Answers the place after what is printed.
    fn end_line(&mut self, out: &mut [u8], at: usize) -> usize
        requires in_order { InOrder (loan self.old) }
        requires line_room_in_bounds { at + line_room ≤ length out.old }
        ensures same_space { self.new.space.words.ghost_name ≡ self.old.space.words.ghost_name }
        ensures serves { Serves end_line_in (loan self.old) (loan self.new) out.old at out.new result }
        ensures at_bound { result ≤ at + line_room }
    {
        let command = scanned_command(&self.line);
        let outcome = answer(command, &mut self.space, self.bags);
        self.line.clear();
        self.begun = false;
        let mut writer = Writer { out, at };
        print(outcome, self.bags, &mut writer);
        writer.at
    }

    // Takes bytes of a chunk from a place on, up to and with the first line feed, and answers the line that ends there.
    fn serve(&mut self, chunk: &[u8], from: usize, out: &mut [u8], at: usize) -> Served
        requires from_in_bounds { from ≤ length chunk.now }
        requires in_order { InOrder (loan self.old) }
        requires line_room_in_bounds { at + line_room ≤ length out.old }
        ensures same_space { self.new.space.words.ghost_name ≡ self.old.space.words.ghost_name }
        ensures onward { Onward chunk.now from result.from }
        ensures serves { Serves (take_bytes lent (slice from result.from chunk.now))
            (loan self.old) (loan self.new) out.old at out.new result.at }
        ensures at_bound { result.at ≤ at + line_room }
    {
        let to = self.line.scan_line(chunk, from);
        self.begun |= from < to;
        if to < chunk.len() {
            let at = self.end_line(out, at);
            return Served { from: to + 1, at };
        }
        Served { from: to, at }
    }

    // Takes bytes of a chunk from a place on, line by line, until the chunk ends or the output has no room for a line
    // more. A `while`: how far a turn goes is known only when its line is answered.
    pub fn serve_lines(&mut self, chunk: &[u8], start: usize, out: &mut [u8]) -> Served
        requires start_in_bounds { start ≤ length chunk.now }
        requires in_order { InOrder (loan self.old) }
        requires line_room_in_bounds { line_room ≤ length out.old }
        ensures same_space { self.new.space.words.ghost_name ≡ self.old.space.words.ghost_name }
        ensures onward { Onward chunk.now start result.from }
        ensures serves { Serves (take_bytes lent (slice start result.from chunk.now))
            (loan self.old) (loan self.new) out.old 0 out.new result.at }
        ensures makes { Makes (take_bytes meant (slice start result.from chunk.now))
            (loan self.old) (loan self.new) out.old 0 out.new result.at }
        ensures at_in_bounds { result.at ≤ length out.new }
    {
        let mut from = start;
        let mut at = 0;
        while from < chunk.len() && at + LINE_ROOM <= out.len() {
            Served { from, at } = self.serve(chunk, from, out, at);
        }
        Served { from, at }
    }

    // The end of the input: a line that has a byte ends there. Answers the place after what is printed.
    pub fn finish(&mut self, out: &mut [u8]) -> usize
        requires in_order { InOrder (loan self.old) }
        requires line_room_in_bounds { line_room ≤ length out.old }
        ensures same_space { self.new.space.words.ghost_name ≡ self.old.space.words.ghost_name }
        ensures serves { Serves (end_input lent) (loan self.old) (loan self.new) out.old 0 out.new result }
        ensures makes { Makes (end_input meant) (loan self.old) (loan self.new) out.old 0 out.new result }
        ensures at_in_bounds { result ≤ length out.new }
    {
        if self.begun {
            return self.end_line(out, 0);
        }
        0
    }
}
