// The lines that hold a number or tags. Kept as functions over a writer, where `Display` and `write!` would print them:
// what those promise is for a write that succeeds, nothing says that one with room does, and a line is always written.
ghost use Rattle.std.specs.Prelude.{◌≡◌, ◌+◌, ◌*◌, ◌/◌, ◌≤◌, length};
ghost use Rattle.tag.specs.Tags.{tags_in};
ghost use Rattle.text.specs.Writing.{Writes};
ghost use Rattle.program_print.specs.Lines.{refused_text, bag_text, lane_text};
ghost use Rattle.program_print.specs.Room.{short_room};

use text::Writer;

// The line of a refusal.
pub fn put_refused(writer: &mut Writer, n: u32)
    requires { writer.old.at + short_room ≤ length writer.old.out.now }
    ensures written { Writes writer.old (refused_text n) writer.new }
    ensures same_buffer { writer.new.out.ghost_name ≡ writer.old.out.ghost_name }
    ensures upper_bound { writer.new.at ≤ writer.old.at + short_room }
{
    writer.put(b"(refused ");
    writer.put_number(n);
    writer.put(b")\n");
}

// The line of a bag.
pub fn put_bag(writer: &mut Writer, tag: u64)
    requires { writer.old.at + short_room ≤ length writer.old.out.now }
    ensures written { Writes writer.old (bag_text tag) writer.new }
    ensures same_buffer { writer.new.out.ghost_name ≡ writer.old.out.ghost_name }
    ensures upper_bound { writer.new.at ≤ writer.old.at + short_room }
{
    writer.put(b"(bag ");
    writer.put_tag(tag);
    writer.put(b")\n");
}

// The line of a lane, of which the words are the tags, two for each.
pub fn put_lane(writer: &mut Writer, words: &[u32])
    requires { writer.old.at + 7 + 11 * (length words.now / 2) ≤ length writer.old.out.now }
    ensures written { Writes writer.old (lane_text (tags_in (length words.now / 2) words.now)) writer.new }
    ensures same_buffer { writer.new.out.ghost_name ≡ writer.old.out.ghost_name }
    ensures upper_bound { writer.new.at ≤ writer.old.at + 7 + 11 * (length words.now / 2) }
{
    writer.put(b"(lane");
    writer.put_tags(words);
    writer.put(b")\n");
}
