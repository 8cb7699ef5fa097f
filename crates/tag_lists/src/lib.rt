// Tag lists in packed decimal: the baggage office's bytes read into words, and words written as such bytes. One pass
// tests every tag, and only then another one writes.
#![tactic(auto)]

mod forms;

ghost use Rattle.std.specs.Prelude.{◌≡◌, ◌*◌, ◌≤◌, ◌++◌, length, drop, not, position, OnOk, OnErr};
ghost use Rattle.std.specs.List.{flat_map};
ghost use Rattle.tag_lists.specs.TagLists.{refusal_number, refused_place, read_tags, write_tags, outcome_of};
ghost use Rattle.tag_lists.specs.Forms.{are_tags, answer};

use forms::Form;

// What refuses a list: 17; 18, with the place of the first tag that is none; or 19.
#[derive(Clone, Copy, PartialEq, Eq)]
pub enum ListError {
    Tags,
    NoTag(u32),
    TagsOut,
}

impl ListError {
    // Its number.
    pub fn number(self) -> u32
        ensures { result ≡ refusal_number self }
    {
        match self {
            ListError::Tags => 17,
            ListError::NoTag(_) => 18,
            ListError::TagsOut => 19,
        }
    }

    // The place of 18, or 0.
    pub fn place(self) -> u32
        ensures { result ≡ refused_place self }
    {
        match self {
            ListError::NoTag(place) => place,
            ListError::Tags | ListError::TagsOut => 0,
        }
    }
}

// 02: 1,024 tags.
pub const MOST_TAGS: usize = 1_024;

// The longest list in each form.
pub const LONGEST_BYTES: usize = 5 * MOST_TAGS;

pub const LONGEST_WORDS: usize = 2 * MOST_TAGS;

// The place of the first tag that is none.
fn first_bad<T: Form>(tags: &[T]) -> Option<usize>
    ensures { result ≡ position (λ tag. not (T.good tag)) tags.now }
{
    tags.iter().position(|tag| !tag.is_tag())
}

// Puts tags that are all good into the other form, in front of the out slice.
fn put_all<T: Form>(tags: &[T], out: &mut [T::Element])
    requires good { are_tags T.good tags.now }
    requires room { T.ROOM * length tags.now ≤ length out.old }
    ensures { out.new ≡ flat_map T.turned tags.now ++ drop (T.ROOM * length tags.now) out.old }
{
    for (i, tag) in tags.iter().enumerate() {
        tag.put(out, T::ROOM * i);
    }
}

// Turns a list, which is whole where no part of a tag is left over, into the other form.
fn turn<T: Form>(tags: &[T], whole: bool, out: &mut [T::Element]) -> Result<u32, ListError>
    ensures value { result ≡ answer T.good T.ROOM whole tags.now (length out.old) }
    ensures ok { OnOk result (out.new ≡ flat_map T.turned tags.now ++ drop (T.ROOM * length tags.now) out.old) }
    ensures err { OnErr result (out.new ≡ out.old) }
{
    if !whole || MOST_TAGS < tags.len() {
        return Err(ListError::Tags);
    }
    if let Some(place) = first_bad(tags) {
        return Err(ListError::NoTag(place as u32));
    }
    if out.len() < T::ROOM * tags.len() {
        return Err(ListError::TagsOut);
    }
    put_all(tags, out);
    Ok(tags.len() as u32)
}

// Reads five bytes a tag into two words a tag.
pub fn read_tags(bytes: &[u8], words: &mut [u32]) -> Result<u32, ListError>
    ensures { outcome_of result words.new ≡ read_tags bytes.now words.old }
{
    let (tags, rest) = bytes.as_chunks::<5>();
    turn(tags, rest.is_empty(), words)
}

// Writes two words a tag as five bytes a tag.
pub fn write_tags(words: &[u32], bytes: &mut [u8]) -> Result<u32, ListError>
    ensures { outcome_of result bytes.new ≡ write_tags words.now bytes.old }
{
    let (tags, rest) = words.as_chunks::<2>();
    turn(tags, rest.is_empty(), bytes)
}
