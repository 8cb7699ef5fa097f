// Two, four and ten digits of a number, with their zeros, put at the front of a buffer.
ghost use Rattle.std.specs.Prelude.{◌≡◌, ◌/◌, ◌≤◌, ◌<◌, length};
ghost use Rattle.std.proofs.lemmas.List.Edits.{sets};
ghost use Rattle.tag.specs.Tags.{billion, tag_of};
ghost use Rattle.text.specs.Numerals.{with_zeros, tag_text};

// The tens of two digits, by a product: quicker than by a quotient.
fn tens(n: u32) -> u32
    requires { n ≤ 99 }
    ensures { result ≡ n / 10 }
{
    n * 103 / 1_024
}

// Two digits. Both bytes are had by one number, 256 times the second and the first:
// 256 * (48 + n - 10 * tens) + 48 + tens, as few products as may be.
fn put_two(out: &mut [u8], n: u32)
    requires { (n ≤ 99) × (2 ≤ length out.old) }
    ensures { out.new ≡ sets out.old 0 (with_zeros 2 n) }
{
    let both = 256 * n + 12_336 - 2_559 * tens(n);
    out[0] = (both % 256) as u8;
    out[1] = (both / 256) as u8;
}

pub fn put_four(out: &mut [u8], n: u32)
    requires { (n ≤ 9_999) × (4 ≤ length out.old) }
    ensures { out.new ≡ sets out.old 0 (with_zeros 4 n) }
{
    put_two(out, n / 100);
    put_two(&mut out[2..], n % 100);
}

// A tag's ten, by its two words.
pub fn put_tag(out: &mut [u8], digit: u32, low: u32)
    requires { (digit ≤ 9) × (low < billion) × (10 ≤ length out.old) }
    ensures { out.new ≡ sets out.old 0 (tag_text (tag_of digit low)) }
{
    out[0] = b'0' + (digit as u8);
    out[1] = b'0' + ((low / 100_000_000) as u8);
    put_four(&mut out[2..], low / 10_000 % 10_000);
    put_four(&mut out[6..], low % 10_000);
}
