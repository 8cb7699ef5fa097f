// A page written from the bags that are ahead of a node of a table whose lanes can be walked.
ghost use Rattle.std.specs.Prelude.{◌≡◌, ◌≤◌, length};
ghost use Rattle.std.proofs.Math.Option.{some};
ghost use Rattle.lane_walk.specs.Walks.{ahead, count_of};

use lane_walk::Lanes;
use table_values::{tag_digit, tag_low};
use text_page::digits::put_tag;
use text_page::{CELL, LINE, LINES, PER_LINE, put_blank_line, put_heading};

// The bags ahead of a node of a table, and how many they are.
#[derive(Clone, Copy)]
pub struct Ahead<'a> {
    pub lanes: Lanes<'a>,
    pub from: u32,
    pub left: u32,
    ghost counted: { count_of (ahead lanes.table.now from) ≡ some left },
}

impl<'a> Ahead<'a> {
    ghost use Rattle.std.specs.Prelude.{◌++◌, take, drop};
    ghost use Rattle.std.proofs.lemmas.List.Edits.{sets};
    ghost use Rattle.text_page.specs.Page.{
      line_length,
      page_length,
      line,
      heading,
      cells,
      per_line,
      tag_line_count,
      tag_lines,
    };
    ghost use Rattle.call_sheet.specs.Found.{tags_ahead};

    // The line of the next tags; answers the bags after them.
    #[tactic(auto, using(crate::proofs::Laws::Walked::readable))]
    fn put_line(self, out: &mut [u8]) -> Self
        requires { line_length ≤ length out.old }
        ensures others { tags_ahead result ≡ drop per_line (tags_ahead self.entry) }
        ensures out_after { out.new ≡ sets out.old 0 (line (cells (take per_line (tags_ahead self.entry)))) }
    {
        put_blank_line(out);
        let lanes = self.lanes;
        let n = self.left.min(PER_LINE);
        let mut from = self.from;
        for c in 0..n as usize {
            let bag = lanes.value(from);
            from = lanes.next(from);
            put_tag(&mut out[CELL * c..], tag_digit(bag), tag_low(bag));
        }
        let left = self.left - n;
        Ahead { lanes, from, left }
    }

    // All lines but the first.
    #[tactic(auto, using(crate::proofs::Laws::Written::ends))]
    fn put_lines(self, out: &mut [u8])
        requires { length out.old ≡ page_length }
        ensures { out.new ≡ sets out.old line_length (tag_lines tag_line_count (tags_ahead self.entry)) }
    {
        let mut rest = self;
        for i in 1..LINES {
            rest = rest.put_line(&mut out[LINE * i..]);
        }
    }

    // A page: the count of the whole lane, and these tags.
    pub fn put_page(self, count: u32, out: &mut [u8])
        requires { (count ≤ 9_999) × (length out.old ≡ page_length) }
        ensures { out.new ≡ heading count ++ tag_lines tag_line_count (tags_ahead self.entry) }
    {
        put_heading(out, count);
        self.put_lines(out);
    }
}
