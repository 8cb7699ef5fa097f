// The two forms of a tag in a list, five bytes in packed decimal and two words, and how each is put into the other.
ghost use Rattle.std.specs.Prelude.{◌≡◌, ◌+◌, ◌≤◌, ℕ, Bool, true, List, length};
ghost use Rattle.std.proofs.lemmas.List.Edits.{sets};
ghost use Rattle.tag_packed.specs.Packed.{is_packed, unpacked, are_tag, packed};
ghost use Rattle.std.proofs.Common.{lit≤};
ghost use Rattle.tag_packed.proofs.Laws.OneTag.{length-unpacked, length-packed};

use tag_packed::{digits, is_packed, pack, put_five, unpack};

// By reference: two words that are passed by value are read as one number, and a list is then written a third slower.
pub trait Form: Copy {
    // An element of the other form.
    type Element;

    // How many elements the other form has.
    const ROOM: usize;

    ghost ROOM: { ℕ };

    ghost good: { Self → Bool };

    // The other form of a tag.
    ghost turned: { Self → List Self.Element };

    fn is_tag(&self) -> bool
        ensures { result ≡ good self.now };

    // Puts the other form of a tag at a place.
    fn put(&self, out: &mut [Self::Element], at: usize)
        requires good { good self.now ≡ true }
        requires room { at + ROOM ≤ length out.old }
        ensures { out.new ≡ sets out.old at (turned self.now) };

    // What each form must prove: how many elements it gives, and few enough that those of 1,024 tags can be counted.
    ghost sized: { (tag : Self) → length (turned tag) ≡ ROOM };

    ghost is_few: { ROOM ≤ 5 };
}

impl Form for [u8; 5] {
    type Element = u32;

    const ROOM: usize = 2;

    ghost ROOM = { 2 };

    ghost good = { is_packed };

    ghost turned = { unpacked };

    ghost sized = { length-unpacked };

    ghost is_few = { lit≤ tt };

    fn is_tag(&self) -> bool {
        is_packed(*self)
    }

    fn put(&self, out: &mut [u32], at: usize) {
        let digits = unpack(*self);
        out[at] = digits::leading(digits);
        out[at + 1] = digits::low(digits);
    }
}

impl Form for [u32; 2] {
    type Element = u8;

    const ROOM: usize = 5;

    ghost ROOM = { 5 };

    ghost good = { are_tag };

    ghost turned = { packed };

    ghost sized = { length-packed };

    ghost is_few = { lit≤ tt };

    fn is_tag(&self) -> bool {
        let [digit, low] = *self;
        tag::is_tag(digit, low)
    }

    fn put(&self, out: &mut [u8], at: usize) {
        let [digit, low] = *self;
        put_five(out, at, pack(tag::digits_of_words(digit, low)));
    }
}
