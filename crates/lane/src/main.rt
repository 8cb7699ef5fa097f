// The lane program: reads the lines of a belt run from standard input, and writes their answers to standard output.
#![tactic(auto)]

ghost use Rattle.std.specs.Prelude.{◌≡◌, ◌≤◌, length};
ghost use Rattle.text_scan.specs.Kept.{text_places};
ghost use Rattle.program_answer.specs.Space.{largest_table};
ghost use Rattle.program_stream.specs.Carried.{loan, InOrder, line_room};
ghost use Rattle.lane.specs.Turns.{bytes_taken, goes_on, Taken, Turned, Ran};

use program_answer::BAG_WORDS;
use program_stream::Session;
use std::io;
use std::io::Read;
use std::ops::ControlFlow;
use table_layout::places::LARGEST_LENGTH;

// How many bytes one read takes at most, and how many bytes of answers are written at once.
const BUFFER: usize = 65_536;

// Says on standard error what went wrong. Where even that cannot be written, nobody is left to be told.
fn tell(rt: &impl Eprint, what: &str) {
    let _ = rt.eprintln(what);
}

// Writes answers. Where they cannot be written, it says so on standard error.
fn put(rt: &(impl Print + Eprint), answers: &[u8]) -> io::Result<()> {
    let written = rt.write_all(answers);
    if written.is_err() {
        tell(rt, "lane: standard output cannot be written");
    }
    written
}

// Reads once, and answers how many bytes came. A read that fails ends the input too, and is told on standard error: its
// end is then not the input's.
fn read(rt: &(impl Input + Eprint), input: &mut [u8]) -> usize
    ensures { result ≤ length input.new }
{
    match rt.reader().read(input) {
        Ok(n) => n,
        Err(_) => {
            tell(rt, "lane: standard input cannot be read");
            0
        }
    }
}

// Answers the lines of a chunk, and writes the answers. It breaks when a write fails, and tells in each case how many
// bytes are taken. A `while`: how many a turn takes is known only when they are answered.
fn answer_chunk(
    rt: &(impl Print + Eprint),
    session: &mut Session,
    chunk: &[u8],
    out: &mut [u8],
) -> ControlFlow<usize, usize>
    requires in_order { InOrder (loan session.old) }
    requires line_room_in_bounds { line_room ≤ length out.old }
    ensures same_space { session.new.space.words.ghost_name ≡ session.old.space.words.ghost_name }
    ensures taken { Taken chunk.now (bytes_taken result) (goes_on result)
        (loan session.old) (loan session.new) out.old out.new }
{
    let mut from = 0;
    while from < chunk.len() {
        let served = session.serve_lines(chunk, from, out);
        from = served.from;
        if put(rt, &out[..served.at]).is_err() {
            return ControlFlow::Break(from);
        }
    }
    ControlFlow::Continue(from)
}

// Reads once, and answers what came before anything more is read. It breaks at the end of the input, and when a write
// fails.
fn turn(
    rt: &(impl Input + Print + Eprint),
    session: &mut Session,
    input: &mut [u8],
    out: &mut [u8],
) -> ControlFlow<usize, usize>
    requires in_order { InOrder (loan session.old) }
    requires line_room_in_bounds { line_room ≤ length out.old }
    ensures same_space { session.new.space.words.ghost_name ≡ session.old.space.words.ghost_name }
    ensures turned { Turned input.new (bytes_taken result) (goes_on result)
        (loan session.old) (loan session.new) out.old out.new }
{
    let n = read(rt, input);
    if n == 0 {
        let end = session.finish(out);
        let _ = put(rt, &out[..end]);
        return ControlFlow::Break(0);
    }
    answer_chunk(rt, session, &input[..n], out)
}

// A session from its start, turn by turn until one breaks. A proved loop has to end, and nothing says that an input does: the
// loop counts its turns, up to a number that no run reaches.
fn run(rt: &(impl Input + Print + Eprint), session: &mut Session, input: &mut [u8], out: &mut [u8])
    requires largest_table_in_bounds { largest_table ≤ length session.old.space.words.now }
    requires text_len { length session.old.line.text ≡ text_places }
    requires line_room_in_bounds { line_room ≤ length out.old }
    ensures same_space { session.new.space.words.ghost_name ≡ session.old.space.words.ghost_name }
    ensures ran { Ran session.old.space.words.now session.old.line.text out.old (loan session.new) out.new }
{
    session.restart();
    for _ in 0..u64::MAX {
        if let ControlFlow::Break(_) = turn(rt, session, input, out) {
            return;
        }
    }
}

fn main(rt: HostRuntime) {
    let mut input = [0u8; BUFFER];
    // The largest table: 1,024 nodes, 16 tasks.
    let mut space = [0u32; LARGEST_LENGTH];
    let mut bags = [0u32; BAG_WORDS];
    let mut out = [0u8; BUFFER];
    let mut session = Session::new(&mut space, &mut bags);
    run(&rt, &mut session, &mut input, &mut out);
}
