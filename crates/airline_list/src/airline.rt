// An airline's line with its line feed, told by words of eight bytes: nearly every line of a list is one.
//
// Kept beside `first_form`, which tells every line: with it alone, its words told first or not, a list of 64 lines took
// 1.3 and 2.2 times as long.
ghost use Rattle.std.specs.Prelude.{IfSome};
ghost use Rattle.airline_list.specs.Airline.{Names};

use crate::End;
use crate::forms::code_in;
use crate::words::has_word;
use text_scan::is_digit;

// The bytes of the longest line with its line feed, and one that follows.
const LINE_AND_MORE: usize = 28;

// The code and the end of the airline's line that stands first, where more follows it; or nothing is told: such a line
// can stand there all the same.
pub fn airline_line(text: &[u8]) -> Option<(usize, End)>
    ensures { IfSome result (Names text.now) }
{
    if text.len() < LINE_AND_MORE {
        return None;
    }
    if !has_word(text, 0, b"(airline") {
        return None;
    }
    if !has_word(text, 7, b"e (code ") {
        return None;
    }
    if !(is_digit(text[15]) & is_digit(text[16]) & is_digit(text[17])) {
        return None;
    }
    let code = code_in(text);
    if has_word(text, 18, b") left)\n") {
        return Some((code, End::Left));
    }
    if has_word(text, 18, b") right)") && text[26] == b'\n' {
        return Some((code, End::Right));
    }
    None
}
