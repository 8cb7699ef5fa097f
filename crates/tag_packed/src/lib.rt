// One tag in packed decimal: ten digits and the five bytes that hold them, both arrays by value.
#![tactic(auto)]

pub mod digits;

ghost use Rattle.std.specs.Prelude.{◌≡◌, true, ◌+◌, ◌≤◌, leb, length};
ghost use Rattle.std.proofs.lemmas.List.Edits.{sets};
ghost use Rattle.tag.specs.Tags.{are_digits};
ghost use Rattle.tag_packed.specs.Packed.{halves, pairs, packed_number, is_packed};

// The digits of five bytes. 02: "two digits to a byte, the higher first".
pub fn unpack(five: [u8; 5]) -> [u8; 10]
    ensures { result ≡ halves five }
{
    let mut digits = [0u8; 10];
    for (i, byte) in five.iter().enumerate() {
        digits[2 * i] = *byte / 16;
        digits[2 * i + 1] = *byte % 16;
    }
    digits
}

// The five bytes of digits.
pub fn pack(digits: [u8; 10]) -> [u8; 5]
    requires { are_digits digits ≡ true }
    ensures { result ≡ pairs 5 digits }
{
    let mut five = [0u8; 5];
    for (i, byte) in five.iter_mut().enumerate() {
        *byte = digits[2 * i] * 16 + digits[2 * i + 1];
    }
    five
}

// Whether half bytes are digits: each is 0 to 9.
fn are_digits(digits: [u8; 10]) -> bool
    ensures { result ≡ are_digits digits }
{
    digits.iter().all(|digit| *digit <= 9)
}

// Whether the digits of five bytes are not all 0: whether some byte is not.
fn not_zero(five: [u8; 5]) -> bool
    ensures { result ≡ leb 1 (packed_number five) }
{
    five.iter().any(|byte| *byte != 0)
}

// Whether five bytes are a tag.
pub fn is_packed(five: [u8; 5]) -> bool
    ensures { result ≡ is_packed five }
{
    are_digits(unpack(five)) & not_zero(five)
}

// Stores five bytes at a place.
pub fn put_five(bytes: &mut [u8], at: usize, five: [u8; 5])
    requires { at + 5 ≤ length bytes.old }
    ensures { bytes.new ≡ sets bytes.old at five }
{
    bytes[at..at + 5].copy_from_slice(&five);
}
