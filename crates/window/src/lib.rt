// Request 2026-11: the lost swaps among the last W ticks, kept in a lent window.
#![tactic(auto)]

mod places;

ghost use Rattle.std.specs.Prelude.{◌≡◌, length, is_ok, IsOkUnless};
ghost use Rattle.window.specs.Lost.{is_lost, lost_word};
ghost use Rattle.window.specs.Window as specs;

// What refuses a window: 23, its width is out of range, it is not so long, or a word is not as feeds leave it; or a
// count: 24, it is not the one after the last.
#[derive(Clone, Copy, PartialEq, Eq)]
pub enum WindowError {
    Window,
    Count,
}

impl WindowError {
    // Its number.
    pub fn number(self) -> u32
        ensures { result ≡ specs.refusal_number self }
    {
        match self {
            WindowError::Window => 23,
            WindowError::Count => 24,
        }
    }
}

// 02: "lost are 5 to 8, 25 to 15, 48 or 51 to 39 and 62 to 0, and no other pair". No branch: which pair comes next is
// anybody's guess.
fn is_lost(before: u32, after: u32) -> bool
    ensures { result ≡ is_lost before after }
{
    (before == 5) & (after == 8)
        | (before == 25) & (after == 15)
        | ((before == 48) | (before == 51)) & (after == 39)
        | (before == 62) & (after == 0)
}

fn lost_word(before: u32, after: u32) -> u32
    ensures { result ≡ lost_word before after }
{
    u32::from(is_lost(before, after))
}

// 02: 24, unless none is fed or the count is "the last one plus 1, with 0 after 4,294,967,295".
fn in_turn(fed: u32, last: u32, count: u32) -> bool
    ensures { result ≡ specs.count_follows fed last count }
{
    (fed == 0) | (count == last.wrapping_add(1))
}

// Makes the window a fresh one, where its length and the width fit.
pub fn fresh(window: &mut [u32], width: u32) -> Result<(), WindowError>
    ensures value { is_ok result ≡ specs.sizes_ok (length window.old) width }
    ensures refusal { IsOkUnless result WindowError.Window }
    ensures window_after { window.new ≡ specs.fresh_leaves window.old width }
{
    if !places::sizes_ok(window.len(), width) {
        return Err(WindowError::Window);
    }
    window.fill(0);
    window[places::WIDTH] = width;
    Ok(())
}

// Feeds a tick to the window: its count, and the task's step before and after. Gives the lost swaps among the last W
// ticks fed.
pub fn feed(window: &mut [u32], count: u32, before: u32, after: u32) -> Result<u32, WindowError>
    ensures { specs.outcome_of result window.new ≡ specs.feed window.old count before after }
{
    let Some(counted) = places::scan(window) else {
        return Err(WindowError::Window);
    };
    if !in_turn(window[places::FED], window[places::LAST], count) {
        return Err(WindowError::Count);
    }
    let lost = lost_word(before, after);
    let oldest = places::put(window, count, lost);
    Ok(counted - oldest + lost)
}
