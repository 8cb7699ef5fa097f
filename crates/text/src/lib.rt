// Texts compared; and texts, numbers and rows of tags, written into a lent buffer one after another.
#![tactic(auto)]

ghost use Rattle.std.specs.Prelude.{◌≡◌, ◌+◌, ◌*◌, ◌/◌, ◌≤◌, length};
ghost use Rattle.tag.specs.Tags.{tags_in};
ghost use Rattle.text.specs.Text.{same};
ghost use Rattle.text.specs.Numerals.{decimal, tag_text, spaced};
ghost use Rattle.text.specs.Writing.{Writes};

// Whether two byte strings are the same. One flag and no branch: of a text whose length it knows the compiler then
// compares eight bytes at once. Kept where `==` would say it, since that took twice the time.
pub fn is_text(text: &[u8], want: &[u8]) -> bool
    ensures { result ≡ same text.now want.now }
{
    if text.len() != want.len() {
        return false;
    }
    let mut ok = true;
    for (byte, wanted) in text.iter().zip(want) {
        ok = ok & (byte == wanted);
    }
    ok
}

// A lent buffer, and the place in it where the next text goes.
#[derive(Drop)]
pub struct Writer<'a> {
    pub out: &'a mut [u8],
    pub at: usize,
}

impl<'a> Writer<'a> {
    // Puts a text.
    pub fn put(&mut self, text: &[u8])
        requires { self.old.at + length text.now ≤ length self.old.out.now }
        ensures written { Writes self.old text.now self.new }
        ensures same_buffer { self.new.out.ghost_name ≡ self.old.out.ghost_name }
    {
        let end = self.at + text.len();
        self.out[self.at..end].copy_from_slice(text);
        self.at = end;
    }

    // A number.
    pub fn put_number(&mut self, n: u32)
        requires { self.old.at + 10 ≤ length self.old.out.now }
        ensures written { Writes self.old (decimal n) self.new }
        ensures same_buffer { self.new.out.ghost_name ≡ self.old.out.ghost_name }
    {
        let mut digits = [0u8; 20];
        let k = io::decimal(n as u64, &mut digits);
        self.put(&digits[..k]);
    }

    // A tag.
    pub fn put_tag(&mut self, tag: u64)
        requires { self.old.at + 10 ≤ length self.old.out.now }
        ensures written { Writes self.old (tag_text tag) self.new }
        ensures same_buffer { self.new.out.ghost_name ≡ self.old.out.ghost_name }
    {
        let mut digits = tag::digits(tag);
        for digit in &mut digits {
            *digit += b'0';
        }
        self.put(&digits);
    }

    // The tags of words, two for a tag, a space before each.
    pub fn put_tags(&mut self, words: &[u32])
        requires { self.old.at + 11 * (length words.now / 2) ≤ length self.old.out.now }
        ensures written { Writes self.old (spaced (tags_in (length words.now / 2) words.now)) self.new }
        ensures same_buffer { self.new.out.ghost_name ≡ self.old.out.ghost_name }
        ensures upper_bound { self.new.at ≤ self.old.at + 11 * (length words.now / 2) }
    {
        for pair in words.chunks_exact(2) {
            self.put(b" ");
            self.put_tag(tag::number(pair[0], pair[1]));
        }
    }
}
