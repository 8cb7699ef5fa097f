// The call start: any slice, any numbers. A refusal changes no lent word.
#![tactic(auto)]

mod fresh;

ghost use Rattle.std.specs.Prelude.{◌≡◌};
ghost use Rattle.machine.specs.Results.{changed_of};
ghost use Rattle.machine.specs.Calls.{start};

use fresh::Sizes;
use machine::refusal::Refusal;
use table_layout::places::table_length;
use table_shape::{lanes_ok, sizes_ok};

// 02: refusal 25; 01: refusals 1 and 2, then the words of a table with all tasks idle and no bag.
#[tactic(auto, unfolding(machine::specs::Calls::start))]
pub fn start(
    table: &mut [u32],
    slots: u32,
    tasks: u32,
    growth: u32,
    lanes: u32,
) -> Result<(), Refusal>
    ensures { changed_of result table.new ≡ start table.old slots tasks growth lanes }
{
    if !lanes_ok(lanes) {
        return Err(Refusal::Lanes);
    }
    if !sizes_ok(slots, tasks, growth, lanes) {
        return Err(Refusal::Sizes);
    }
    if table.len() != table_length(slots, tasks) {
        return Err(Refusal::Length);
    }
    Sizes {
        slots,
        tasks,
        growth,
        lanes,
    }
    .write(table);
    Ok(())
}
