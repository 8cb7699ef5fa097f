// The words of a window: tested and counted in one pass over its places, and the writes.
ghost use Rattle.std.specs.Prelude.{◌≡◌, ◌+◌, ◌≤◌, length, slice_index};
ghost use Rattle.std.specs.Bool.{then_some};
ghost use Rattle.window.specs.Window as specs;

// 02: "W from 1 to 4,096".
pub const WIDEST: u32 = 4_096;

// 02: "Its words are W, how many of its places are fed, the next place, the last count, then W places".
pub const WIDTH: usize = 0;

pub const FED: usize = 1;

pub const NEXT: usize = 2;

pub const LAST: usize = 3;

pub const PLACES: usize = 4;

pub fn sizes_ok(words: usize, width: u32) -> bool
    ensures { result ≡ specs.sizes_ok words width }
{
    (1 <= width) & (width <= WIDEST) & (words == (width as usize) + PLACES)
}

fn next_ok(width: u32, fed: u32, next: u32) -> bool
    ensures { result ≡ specs.next_ok width fed next }
{
    if fed < width {
        next == fed
    } else {
        next < width
    }
}

fn last_ok(fed: u32, last: u32) -> bool
    ensures { result ≡ specs.last_ok fed last }
{
    (0 < fed) | (last == 0)
}

fn header_ok(window: &[u32]) -> bool
    ensures { result ≡ specs.header_ok window.now }
{
    let [width, fed, next, last, ..] = *window else {
        return false;
    };
    sizes_ok(window.len(), width) & (fed <= width) & next_ok(width, fed, next) & last_ok(fed, last)
}

// How many places that are fed are 1, where all are 0 or 1. Each word is gathered and added, with no branch; a sum that
// wraps is of words that are not bits.
fn tally(words: &[u32]) -> Option<u32>
    requires { length words.now ≤ 4_096 }
    ensures { result ≡ then_some (specs.at_most 1 words.now) (specs.total words.now) }
{
    let mut lost: u32 = 0;
    let mut gathered: u32 = 0;
    for word in words {
        lost = lost.wrapping_add(*word);
        gathered |= *word;
    }
    (gathered <= 1).then_some(lost)
}

// Whether places that are not fed are 0. No branch: a test that leaves at the first other word is slower. Kept beside
// `tally`, which adds as well: one of both would add where nothing is asked of the sum.
fn all_zeros(words: &[u32]) -> bool
    ensures { result ≡ specs.at_most 0 words.now }
{
    words.iter().fold(0, |gathered, word| gathered | *word) == 0
}

// How many lost swaps the places of a window hold: the places fed, then those not fed, one pass in all.
pub fn scan(window: &[u32]) -> Option<u32>
    ensures { result ≡ then_some (specs.is_window window.now) (specs.total (specs.places window.now)) }
{
    if !header_ok(window) {
        return None;
    }
    let (fed, others) = window[PLACES..].split_at(window[FED] as usize);
    let lost = tally(fed)?;
    all_zeros(others).then_some(lost)
}

// Puts the words of one more tick; gives back the word that stood in its place.
pub fn put(window: &mut [u32], count: u32, word: u32) -> u32
    requires { (specs.next_place window.old ≤ 4_095) × (specs.next_place window.old + 5 ≤ length window.old) }
    ensures value { result ≡ slice_index (specs.places window.old) (specs.next_place window.old) }
    ensures window_after { window.new ≡ specs.fed_words window.old count word }
{
    let width = window[WIDTH];
    let fed = window[FED];
    let next = window[NEXT];
    let at = PLACES + (next as usize);
    let oldest = window[at];
    window[FED] = one_more(width, fed);
    window[NEXT] = go_round(width, next);
    window[LAST] = count;
    window[at] = word;
    oldest
}

fn one_more(width: u32, fed: u32) -> u32
    ensures { result ≡ specs.one_more width fed }
{
    if fed < width { fed + 1 } else { fed }
}

fn go_round(width: u32, next: u32) -> u32
    requires { next ≤ 4_095 }
    ensures { result ≡ specs.go_round width next }
{
    if next + 1 < width { next + 1 } else { 0 }
}
