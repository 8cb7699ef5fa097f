// A value as the table holds it: its tests, the marks of a side and their mirrors.
// Kept: that two words are a value stands in clauses, and in no type: they are read from a table that was tested whole,
// where a type of tested words would be made anew at each read.
#![tactic(auto)]

ghost use Rattle.std.specs.Prelude.{◌≡◌, true, ◌+◌, ◌≤◌, length};
ghost use Rattle.std.proofs.lemmas.List.Edits.{sets};
ghost use Rattle.tag.specs.Tags.{digit_of, low_of, tag_words};
ghost use Rattle.machine.specs.Sides.{right, side_of};
ghost use Rattle.machine.specs.Values.{
  never,
  stored_of,
  number,
  encode,
  decode,
  mirror,
  bag_ok,
  value_ok,
};
ghost use Rattle.table_values.specs.Tests.{is_same, marked};

use machine::Stored;

// 02: the mirror of a mark is 3 higher or lower.
const MIRROR_STEP: u32 = 3;

// The words of an argument, or of a tag, as a caller gives them: the digit first. Kept as a function: a `From` of two
// numbers would not say which is the digit.
pub fn of_words(digit: u32, low: u32) -> Stored
    ensures { result ≡ stored_of digit low }
{
    Stored { word: low, digit }
}

// The words of a node that was never used. Kept in place of `Default`, which would say zeros and not what they mean.
pub fn never() -> Stored
    ensures { result ≡ encode never }
{
    Stored { word: 0, digit: 0 }
}

// The number of an argument, or of a bag.
pub fn number(v: Stored) -> u64
    ensures { result ≡ number v }
{
    tag::number(v.digit, v.word)
}

// The leading digit of a bag's tag.
pub fn tag_digit(v: Stored) -> u32
    requires { bag_ok v ≡ true }
    ensures { result ≡ digit_of (number v) }
{
    v.digit
}

// The number of the nine digits below.
pub fn tag_low(v: Stored) -> u32
    requires { bag_ok v ≡ true }
    ensures { result ≡ low_of (number v) }
{
    v.word
}

// 02: two words for a tag, digit first. Kept with a place: the slice and its layout are the C caller's.
pub fn put_tag(out: &mut [u32], at: usize, v: Stored)
    requires { (bag_ok v ≡ true) × (at + 2 ≤ length out.old) }
    ensures { out.new ≡ sets out.old at (tag_words (number v)) }
{
    out[at] = v.digit;
    out[at + 1] = v.word;
}

// 02: a tag is 1 to 9,999,999,999.
pub fn bag_ok(v: Stored) -> bool
    ensures { result ≡ bag_ok v }
{
    tag::is_tag(v.digit, v.word)
}

// 01: V holds a bag number, a mark, or 0 for never used. 02: marks have digit 0. Tests joined by `&`, here and in
// `table_shape`, have no branches, so that the compiler tests several nodes at once.
pub fn value_ok(v: Stored) -> bool
    ensures { result ≡ value_ok v }
{
    let word = v.word;
    let digit = v.digit;
    ((word <= tag::LARGEST_LOW) & (digit <= 9))
        | ((Stored::LN <= word) & (word <= Stored::RY) & (digit == 0))
}

// Whether two values are the same: their words are.
#[tactic(auto, using(crate::proofs::Laws::ValueWords::compares))]
pub fn same(u: Stored, v: Stored) -> bool
    requires { (value_ok u ≡ true) × (value_ok v ≡ true) }
    ensures { result ≡ is_same (decode u) (decode v) }
{
    u == v
}

// The mirror of a mark: up to LY that mark plus 3, of the others minus 3. Any other value is its own.
#[tactic(auto, using(crate::proofs::Laws::ValueWords::mirrors))]
pub fn mirror(v: Stored) -> Stored
    requires { value_ok v ≡ true }
    ensures { result ≡ encode (mirror (decode v)) }
{
    let w = v.word;
    if w < Stored::LN {
        v
    } else if w <= Stored::LY {
        Stored {
            word: w + MIRROR_STEP,
            digit: 0,
        }
    } else {
        Stored {
            word: w - MIRROR_STEP,
            digit: 0,
        }
    }
}

// 01's marks by their letters.
#[derive(Clone, Copy)]
pub enum Mark {
    N,
    X,
    Y,
}

impl Mark {
    // The right side's.
    fn of_right(self) -> Stored
        ensures { result ≡ encode (marked self right) }
    {
        let word = match self {
            Mark::N => Stored::RN,
            Mark::X => Stored::RX,
            Mark::Y => Stored::RY,
        };
        Stored { word, digit: 0 }
    }

    // The mark of a side: the left one's is the mirror of the right one's.
    #[tactic(auto, using(crate::proofs::Laws::ValueWords::marks))]
    pub fn of(self, side: u32) -> Stored
        ensures { result ≡ encode (marked self (side_of side)) }
    {
        let right = self.of_right();
        if side == 0 { mirror(right) } else { right }
    }

    // Whether a value is the mark of a side.
    #[tactic(auto, using(crate::proofs::Laws::ValueWords::marks))]
    pub fn is(self, v: Stored, side: u32) -> bool
        requires { value_ok v ≡ true }
        ensures { result ≡ is_same (decode v) (marked self (side_of side)) }
    {
        same(v, self.of(side))
    }
}
