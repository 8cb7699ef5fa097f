// The lines of a page of the shift sheet, put at the front of a buffer: blank ones, the heading, and a tag's digits.
#![tactic(auto)]

pub mod digits;

ghost use Rattle.std.specs.Prelude.{◌≡◌, [], ◌≤◌, length};
ghost use Rattle.std.proofs.lemmas.List.Edits.{sets};
ghost use Rattle.text_page.specs.Page.{line_length, line, heading};

// 02: "The shift office prints 80 columns by 60 lines."
pub const COLUMNS: usize = 80;

// A line with its line feed.
pub const LINE: usize = 81;

pub const LINES: usize = 60;

// 02: "4,860 bytes".
pub const PAGE: usize = 4_860;

// 02: "each ten digits and one blank".
pub const CELL: usize = 11;

// 02: "seven tags"; "A page takes 413 tags".
pub const PER_LINE: u32 = 7;

pub const PER_PAGE: u32 = 413;

// A line of blanks.
pub fn put_blank_line(out: &mut [u8])
    requires { line_length ≤ length out.old }
    ensures { out.new ≡ sets out.old 0 (line []) }
{
    out[..COLUMNS].fill(b' ');
    out[COLUMNS] = b'\n';
}

// The first line. 02: "`LANE`, a space and the whole lane's bag count in four digits, blanks after".
pub fn put_heading(out: &mut [u8], count: u32)
    requires { (count ≤ 9_999) × (line_length ≤ length out.old) }
    ensures { out.new ≡ sets out.old 0 (heading count) }
{
    put_blank_line(out);
    out[..5].copy_from_slice(b"LANE ");
    digits::put_four(&mut out[5..], count);
}
