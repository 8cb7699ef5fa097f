// The first line of a text, by its form. A form tells where its line ends, so no line feed is looked for.
ghost use Rattle.std.specs.Prelude.{true, ◌≡◌, ◌-◌, ◌≤◌, length};
ghost use Rattle.text.specs.Text.{same};
ghost use Rattle.text.specs.Lines.{first_line, one_line};
ghost use Rattle.text_scan.specs.Scanned.{zero_digit, is_digit};
ghost use Rattle.airline_list.specs.Forms.{said, told, end_text, form_text, code_in, form_of};
ghost use Rattle.airline_list.specs.FirstForm.{three_digits, has_code, end_of_two};

use crate::End;
use text::is_text;
use text_scan::is_digit;

// What a line says: the end of the airline with a code; or that of all others.
#[derive(Clone, Copy)]
pub enum Form {
    Airline { code: usize, end: End },
    Others { end: End },
}

// Whether the first line of a text is this one.
fn is_line(text: &[u8], line: &[u8]) -> bool
    requires { one_line line.now ≡ true }
    ensures { result ≡ same (first_line text.now) line.now }
{
    let n = line.len();
    if text.len() < n {
        return false;
    }
    if !is_text(&text[..n], line) {
        return false;
    }
    if text.len() == n {
        return true;
    }
    text[n] == b'\n'
}

// Whether a text begins as an airline's line does, with a code of three digits.
fn has_code(text: &[u8]) -> bool
    ensures { result ≡ has_code text.now }
{
    if text.len() < 18 {
        return false;
    }
    // Eight bytes are compared at once.
    if !is_text(&text[..8], b"(airline") {
        return false;
    }
    if !is_text(&text[8..15], b" (code ") {
        return false;
    }
    is_digit(text[15]) & is_digit(text[16]) & is_digit(text[17])
}

// The value of a digit.
fn value(digit: u8) -> usize
    requires { is_digit digit ≡ true }
    ensures { (result ≡ digit - zero_digit) × (result ≤ 9) }
{
    digit as usize - b'0' as usize
}

// The number of the three digits.
pub fn code_in(text: &[u8]) -> usize
    requires { three_digits text.now ≡ true }
    ensures { result ≡ code_in text.now }
{
    100 * value(text[15]) + 10 * value(text[16]) + value(text[17])
}

// The end for which a text's first line is the one of two.
fn end_of_two(text: &[u8], left: &[u8], right: &[u8]) -> Option<End>
    requires left_line { one_line left.now ≡ true }
    requires right_line { one_line right.now ≡ true }
    ensures { result ≡ end_of_two (first_line text.now) left.now right.now }
{
    if is_line(text, left) {
        return Some(End::Left);
    }
    if is_line(text, right) {
        return Some(End::Right);
    }
    None
}

// The form of the first line of a text, where it has one.
pub fn first_form(text: &[u8]) -> Option<Form>
    ensures { told result ≡ form_of (first_line text.now) }
{
    if has_code(text) {
        let code = code_in(text);
        let end = end_of_two(&text[18..], b") left)", b") right)")?;
        return Some(Form::Airline { code, end });
    }
    let end = end_of_two(text, b"(others left)", b"(others right)")?;
    Some(Form::Others { end })
}

impl End {
    // The bytes of its name: "left" and "right". Its number is read, with no branch: with a `match` a list took a quarter
    // longer.
    pub(crate) fn length(self) -> usize
        ensures { result ≡ length (end_text self) }
    {
        4 + self as usize
    }
}

impl Form {
    // The bytes of a line of this form.
    pub fn length(self) -> usize
        ensures { result ≡ length (form_text (said self)) }
    {
        match self {
            Form::Airline { code: _, end } => 21 + end.length(),
            Form::Others { end } => 9 + end.length(),
        }
    }
}
