// A tag as one number, as two words, the leading digit and the nine digits below, and as ten digits.
#![tactic(auto)]

ghost use Rattle.std.specs.Prelude.{◌≡◌, [], ◌∷◌, ◌/◌, ◌%◌, ◌≤◌, ◌<◌};
ghost use Rattle.tag.specs.Tags.{billion, largest_tag, tag_of, digit_of, low_of, is_tag, ten_digits};

pub const BILLION: u64 = 1_000_000_000;

// 02: "1 to 9,999,999,999".
pub const LARGEST: u64 = 9_999_999_999;

// The largest number of the nine digits below.
pub const LARGEST_LOW: u32 = 999_999_999;

// The tag of its words.
pub fn number(digit: u32, low: u32) -> u64
    ensures { result ≡ tag_of digit low }
{
    (digit as u64) * BILLION + (low as u64)
}

// The leading digit of a tag.
pub fn digit(tag: u64) -> u32
    requires { tag ≤ largest_tag }
    ensures { result ≡ digit_of tag }
{
    (tag / BILLION) as u32
}

// The number of the nine digits below.
pub fn low(tag: u64) -> u32
    ensures { result ≡ low_of tag }
{
    (tag % BILLION) as u32
}

// Whether two words are a tag.
pub fn is_tag(digit: u32, low: u32) -> bool
    ensures { result ≡ is_tag digit low }
{
    (digit <= 9) & (low <= LARGEST_LOW) & (1 <= number(digit, low))
}

// The ten digits of a tag's words, each two as a number.
fn twos(digit: u32, low: u32) -> [u8; 5]
    requires { (digit ≤ 9) × (low < billion) }
    ensures { let tag = tag_of digit low in
        result ≡ tag / 100_000_000 % 100 ∷ tag / 1_000_000 % 100 ∷ tag / 10_000 % 100
        ∷ tag / 100 % 100 ∷ tag % 100 ∷ [] }
{
    let upper = (low / 10_000 % 10_000) as u16;
    let lower = (low % 10_000) as u16;
    [
        (digit * 10 + low / 100_000_000) as u8,
        (upper / 100) as u8,
        (upper % 100) as u8,
        (lower / 100) as u8,
        (lower % 100) as u8,
    ]
}

// The tens of a number of two digits, by a product: of products several are made at once, of quotients not.
pub fn tens(two: u8) -> u8
    requires { two ≤ 99 }
    ensures { result ≡ two / 10 }
{
    ((two as u16) * 103 / 1_024) as u8
}

// The ten digits of a tag's words, the highest first.
pub fn digits_of_words(digit: u32, low: u32) -> [u8; 10]
    requires { (digit ≤ 9) × (low < billion) }
    ensures { result ≡ ten_digits (tag_of digit low) }
{
    let twos = twos(digit, low);
    let mut digits = [0u8; 10];
    for (i, two) in twos.iter().enumerate() {
        let ten = tens(*two);
        digits[2 * i] = ten;
        digits[2 * i + 1] = *two - 10 * ten;
    }
    digits
}

// The last ten digits of a number.
pub fn digits(tag: u64) -> [u8; 10]
    ensures { result ≡ ten_digits tag }
{
    digits_of_words((tag / BILLION % 10) as u32, low(tag))
}
