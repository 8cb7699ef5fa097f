// The call sheet (2026-09), on any slices: the lane is walked once, to its end, and then a page of its tags is written.
// A refusal changes no lent byte.
#![tactic(auto)]

mod pages;

ghost use Rattle.std.specs.Prelude.{◌≡◌, ◌<◌};
ghost use Rattle.machine.specs.Table.{lane_count};
ghost use Rattle.machine.specs.Calls.{lane};
ghost use Rattle.machine.specs.Results.{changed_of};
ghost use Rattle.machine.specs.Sheets.{sheet_into, sheet};

use lane_walk::Lanes;
use machine::refusal::Refusal;
use pages::Ahead;
use table_layout::header;
use table_shape::table_refusal;
use text_page::{PAGE, PER_PAGE};

// 02: pages are named from 0, and 20 is for a page above 2.
const LAST_PAGE: u32 = 2;

// A page of a lane that is there: after refusal 26.
#[tactic(auto, unfolding(machine::specs::Sheets::sheet_into))]
fn sheet_lane(lanes: Lanes, l: u32, page: u32, out: &mut [u8]) -> Result<(), Refusal>
    requires { l < lane_count lanes.table.now }
    ensures { changed_of result out.new
        ≡ sheet_into (lane lanes.entry.table.now l) page out.old }
{
    let located = lanes.locate(l, (PER_PAGE as usize) * (page as usize))?;
    if LAST_PAGE < page {
        return Err(Refusal::Page);
    }
    if out.len() != PAGE {
        return Err(Refusal::PageOut);
    }
    let from = located.node;
    let left = located.bags.saturating_sub(PER_PAGE * page);
    Ahead { lanes, from, left }.put_page(located.bags, out);
    Ok(())
}

// 02: refusals 3, 4, 26, 11, 20 and 21, then every byte of the page.
#[tactic(auto, unfolding(machine::specs::Sheets::sheet))]
pub fn sheet(table: &[u32], l: u32, page: u32, out: &mut [u8]) -> Result<(), Refusal>
    ensures { changed_of result out.new ≡ sheet table.now l page out.old }
{
    table_refusal(table)?;
    if header::lanes(table) <= l {
        return Err(Refusal::Lane);
    }
    sheet_lane(Lanes { table }, l, page, out)
}
