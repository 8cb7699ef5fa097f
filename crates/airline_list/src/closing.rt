// A closing line that is all that is left of a list, told by words of eight bytes.
//
// Kept beside `first_form`: with it alone a list of two lines took a quarter longer.
ghost use Rattle.std.specs.Prelude.{IfSome};
ghost use Rattle.airline_list.specs.Closing.{Closes};

use crate::End;
use crate::words::has_word;

// The end for all others, where the text has the length of a closing line with its line feed; or nothing is told: such
// a line can stand there all the same.
pub fn closing_line(text: &[u8]) -> Option<End>
    ensures { IfSome result (Closes text.now) }
{
    if text.len() == 14 {
        if !has_word(text, 0, b"(others ") {
            return None;
        }
        if has_word(text, 6, b"s left)\n") {
            return Some(End::Left);
        }
        if has_word(text, 6, b"s right)") {
            return Some(End::Right);
        }
        return None;
    }
    if text.len() != 15 {
        return None;
    }
    if has_word(text, 0, b"(others ") && has_word(text, 7, b" right)\n") {
        return Some(End::Right);
    }
    None
}
