// Scanning a line, byte by byte: what is kept of it is one value in constant memory.
#![tactic(auto)]

ghost use Rattle.std.specs.Prelude.{◌≡◌, true, ◌+◌, ◌*◌, ◌≤◌, ◌<◌, min, eqb, length, take, slice_index};
ghost use Rattle.text_scan.specs.Scanned.{is_digit};
ghost use Rattle.text_scan.specs.Kept.{
  text_places,
  number_places,
  kept_number,
  kept_of,
  no_text,
  kept_at_first,
  text_with,
  keep_other,
  keep_opened,
  keep_extended,
  keep_byte,
  ScansLine,
};

use std::marker::Model;

// One byte more than the longest form has.
pub const TEXT_PLACES: usize = 39;

// One number more than any form has.
pub const NUMBER_PLACES: usize = 4;

// One digit more than a tag has.
const COUNTED_DIGITS: usize = 11;

// What is kept of a line so far: the front of its text, and how many bytes of it are kept; its first three numbers and
// the last, and how many there are, up to 4; how many digits the last one has, up to 11; and whether the last byte was
// a digit. Its parts are anybody's: a scan goes on from whatever stands in them.
#[derive(Clone, Copy)]
pub struct Line {
    pub text: [u8; TEXT_PLACES],
    pub length: usize,
    pub numbers: [u64; NUMBER_PLACES],
    pub count: usize,
    pub width: usize,
    pub in_number: bool,
}

// Clauses see both arrays whole, beside the counts. Kept: of `ScanKept` only the counts are of the type, since `scan_line`
// asks nothing of the numbers; a caller that reads them says so.
impl Model for Line {
    ghost use Rattle.text_scan.specs.Kept.{Scan, Kept, Counts};

    ghost Value = { Kept };

    ghost view = { λ a. record {
      text = a.text;
      numbers = a.numbers;
      scan = record { length = a.length; count = a.count; width = a.width; in_number = a.in_number };
    } };

    ghost inverse = { λ k. record {
      text = k.text;
      length = k.scan.length;
      numbers = k.numbers;
      count = k.scan.count;
      width = k.scan.width;
      in_number = k.scan.in_number;
    } };

    ghost invariant = { λ a. Counts
        (record { length = a.length; count = a.count; width = a.width; in_number = a.in_number }) };
}

// A number with a further digit, of value d. Above the largest tag, it is kept as the largest tag.
fn with_digit(n: u64, d: u64) -> u64
    requires { d < 10 }
    ensures { result ≡ kept_number (10 * n + d) }
{
    if n < tag::BILLION {
        return 10 * n + d;
    }
    tag::LARGEST
}

pub fn is_digit(b: u8) -> bool
    ensures { result ≡ is_digit b }
{
    b.is_ascii_digit()
}

impl Line {
    // A line of which nothing is scanned.
    pub fn new() -> Line
        ensures { result ≡ kept_at_first no_text }
    {
        Line {
            text: [0; TEXT_PLACES],
            length: 0,
            numbers: [0; NUMBER_PLACES],
            count: 0,
            width: 0,
            in_number: false,
        }
    }

    // Begins a line of which nothing is scanned. What stands in the array of the text is then of no account.
    pub fn clear(&mut self)
        ensures { self.new ≡ kept_at_first self.old.text }
    {
        self.length = 0;
        self.numbers = [0; NUMBER_PLACES];
        self.count = 0;
        self.width = 0;
        self.in_number = false;
    }

    // The front of the text.
    pub fn text(&self) -> &[u8]
        ensures { result.now ≡ take self.now.scan.length self.now.text }
    {
        &self.text[..self.length]
    }

    // One of the first three numbers, 0 where there are fewer.
    pub fn number(&self, i: usize) -> u64
        requires { i < number_places }
        ensures { result ≡ slice_index self.now.numbers i }
    {
        self.numbers[i]
    }

    // Whether the last number has so many digits. Above 11 they are not counted.
    pub fn has_width(&self, digits: usize) -> bool
        ensures { result ≡ eqb self.now.scan.width digits }
    {
        self.width == digits
    }

    // Puts a byte at the end of the text, if it is among the first 39.
    fn put(&mut self, b: u8)
        ensures { let s = self.old.scan in
            self.new ≡ kept_of (text_with self.old.text s.length b) self.old.numbers
            (record s { length = min text_places (s.length + 1) }) }
    {
        if self.length < TEXT_PLACES {
            self.text[self.length] = b;
            self.length += 1;
        }
    }

    // A byte that is no digit.
    fn append(&mut self, b: u8)
        ensures { self.new ≡ keep_other self.old b }
    {
        self.put(b);
        self.in_number = false;
    }

    // A digit with the value d that opens a number. From the fourth number on they share the last place.
    fn open_number(&mut self, d: u64)
        ensures { self.new ≡ keep_opened self.old d }
    {
        self.put(b'0');
        self.count = (self.count + 1).min(NUMBER_PLACES);
        self.numbers[self.count - 1] = d;
        self.width = 1;
        self.in_number = true;
    }

    // A further digit with the value d of the number that is open.
    fn extend_number(&mut self, d: u64)
        requires is_open { self.old.scan.in_number ≡ true }
        requires is_digit { d < 10 }
        ensures { self.new ≡ keep_extended self.old d }
    {
        let place = self.count - 1;
        self.numbers[place] = with_digit(self.numbers[place], d);
        self.width = self.width.saturating_add(1).min(COUNTED_DIGITS);
    }

    // Scans one byte.
    #[tactic(auto, unfolding(crate::specs::Kept::keep_byte))]
    fn scan_byte(&mut self, b: u8)
        ensures { self.new ≡ keep_byte self.old b }
    {
        if !is_digit(b) {
            return self.append(b);
        }
        let d = u64::from(b - b'0');
        if self.in_number {
            self.extend_number(d)
        } else {
            self.open_number(d)
        }
    }

    // Scans a line on from a place of a chunk, until its line feed or the end of the chunk, and answers where it stopped.
    pub fn scan_line(&mut self, chunk: &[u8], from: usize) -> usize
        requires { from ≤ length chunk.now }
        ensures { ScansLine chunk.now from self.old self.new result }
    {
        for i in from..chunk.len() {
            let b = chunk[i];
            if b == b'\n' {
                return i;
            }
            self.scan_byte(b);
        }
        chunk.len()
    }
}
