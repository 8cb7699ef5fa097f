// Airline lists: texts that say at which end each airline is loaded. A list is read in one pass, with a bit for each
// code.
#![tactic(auto)]

mod airline;
mod closing;
mod codes;
mod forms;
mod words;

ghost use Rattle.std.specs.Prelude.{[], None, ◌≡◌};
ghost use Rattle.airline_list.specs.Outcomes.{flaw_number, sent_of, checked_of};
ghost use Rattle.airline_list.specs.Lists.{code_of, verdict, checked, sent};
ghost use Rattle.airline_list.specs.Read.{Kept, Reading, sent_to};

use airline::airline_line;
use closing::closing_line;
use codes::Codes;
use forms::{Form, first_form};

// The ends of the lane.
#[derive(Clone, Copy, PartialEq, Eq)]
pub enum End {
    Left = 0,
    Right = 1,
}

// What a list is refused for, by the refusal's number.
#[derive(Clone, Copy, PartialEq, Eq)]
pub enum Flaw {
    Line = 27,
    Code = 28,
    Closing = 29,
}

impl Flaw {
    pub fn number(self) -> u32
        ensures { result ≡ flaw_number self }
    {
        self as u32
    }
}

// The fault of a list: its first faulty line, from 1, and what is wrong there.
#[derive(Clone, Copy, PartialEq, Eq)]
pub struct Fault {
    pub flaw: Flaw,
    pub line: u32,
}

// How far a list is read: the place where the next line begins, that line's number, and the end of the wanted code,
// where a line has named it.
#[derive(Clone, Copy)]
struct Place {
    from: usize,
    line: u32,
    named: Option<End>,
}

const MOST_LINES: u32 = 64;

// Reads airlines' lines as long as they are told by their words and another one follows.
fn read_airlines(list: &[u8], wanted: usize, codes: &mut Codes) -> Place
    requires { Kept wanted codes.old.bits None [] }
    ensures { Reading wanted list.now result.from result.line codes.new.bits result.named }
{
    let mut from = 0;
    let mut named = None;
    for line in 1..MOST_LINES + 1 {
        let here = Place { from, line, named };
        let Some((code, end)) = airline_line(&list[from..]) else {
            return here;
        };
        if !codes.insert(code) {
            return here;
        }
        if code == wanted {
            named = Some(end);
        }
        // Beside the end's name a line has 21 bytes, and its line feed.
        from += 22 + end.length();
    }
    Place {
        from,
        line: MOST_LINES + 1,
        named,
    }
}

// Reads the lines from a place on up to the first faulty one, and gives the end for the wanted code.
fn read_lines(list: &[u8], wanted: usize, codes: &mut Codes, place: Place) -> Result<End, Fault>
    requires { Reading wanted list.now place.from place.line codes.old.bits place.named }
    ensures { sent_of result ≡ sent_to wanted (verdict list.now) }
{
    let mut from = place.from;
    let mut named = place.named;
    for line in place.line..MOST_LINES + 1 {
        let Some(form) = first_form(&list[from..]) else {
            return Err(Fault {
                flaw: Flaw::Line,
                line,
            });
        };
        let to = from + form.length();
        let last = list.len() - to <= 1;
        match form {
            Form::Airline { code, end } => {
                if !codes.insert(code) {
                    return Err(Fault {
                        flaw: Flaw::Code,
                        line,
                    });
                }
                if last {
                    return Err(Fault {
                        flaw: Flaw::Closing,
                        line,
                    });
                }
                if code == wanted {
                    named = Some(end);
                }
            }
            Form::Others { end } => {
                if last {
                    return Ok(named.unwrap_or(end));
                }
                return Err(Fault {
                    flaw: Flaw::Closing,
                    line,
                });
            }
        }
        from = to + 1;
    }
    Err(Fault {
        flaw: Flaw::Line,
        line: MOST_LINES + 1,
    })
}

// The second to fourth of a tag's ten digits.
fn code_of(tag: u64) -> usize
    ensures { result ≡ code_of tag }
{
    (tag / 1_000_000 % 1_000) as usize
}

// The end to which a list sends a tag, or the list's fault. What is left where no line is told is a closing line, or it
// is read line by line.
//
// Not inlined: the library has it once, for the test of a list and for the push by list.
#[inline(never)]
pub fn end_for(list: &[u8], tag: u64) -> Result<End, Fault>
    ensures { sent_of result ≡ sent (verdict list.now) tag }
{
    let wanted = code_of(tag);
    let mut codes = Codes::none();
    let place = read_airlines(list, wanted, &mut codes);
    if MOST_LINES < place.line {
        return Err(Fault {
            flaw: Flaw::Line,
            line: place.line,
        });
    }
    match closing_line(&list[place.from..]) {
        Some(others) => Ok(place.named.unwrap_or(others)),
        None => read_lines(list, wanted, &mut codes, place),
    }
}

// Whether a list is accepted, or else its first faulty line with its lowest number: whatever tag it sends.
pub fn check(list: &[u8]) -> Result<(), Fault>
    ensures { checked_of result ≡ checked (verdict list.now) }
{
    end_for(list, 0)?;
    Ok(())
}
