// The two words of ten digits.
ghost use Rattle.std.specs.Prelude.{◌≡◌, true, ◌+◌, ◌*◌, ◌≤◌};
ghost use Rattle.tag.specs.Tags.{digit_of, low_of, number_of, are_digits};

// The number of four digits, and how far four bytes of any value reach.
fn four(a: u8, b: u8, c: u8, d: u8) -> u32
    ensures { (result ≡ a * 1_000 + b * 100 + c * 10 + d) × (result ≤ 283_305) }
{
    (a as u32) * 1_000 + (b as u32) * 100 + (c as u32) * 10 + (d as u32)
}

// The leading digit of a tag.
pub fn leading(digits: [u8; 10]) -> u32
    requires { are_digits digits ≡ true }
    ensures { result ≡ digit_of (number_of digits) }
{
    digits[0] as u32
}

// The number of the nine digits below.
pub fn low(digits: [u8; 10]) -> u32
    requires { are_digits digits ≡ true }
    ensures { result ≡ low_of (number_of digits) }
{
    let upper = four(digits[2], digits[3], digits[4], digits[5]);
    let lower = four(digits[6], digits[7], digits[8], digits[9]);
    (digits[1] as u32) * 100_000_000 + upper * 10_000 + lower
}
