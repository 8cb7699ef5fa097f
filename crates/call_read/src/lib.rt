// The call read, on any slices: the bags of a lane are counted and then written. A refusal changes no lent word.
#![tactic(auto)]

ghost use Rattle.std.specs.Prelude.{◌≡◌, ◌*◌, ◌≤◌, ◌<◌, length};
ghost use Rattle.std.proofs.Math.Option.{some};
ghost use Rattle.machine.specs.Calls.{lane, read_into, read};
ghost use Rattle.machine.specs.Results.{read_of};
ghost use Rattle.machine.specs.Table.{lane_count};
ghost use Rattle.lane_walk.specs.Walks.{ahead, count_of};
ghost use Rattle.call_read.specs.Laid.{laid};

use lane_walk::Lanes;
use machine::refusal::Refusal;
use table_layout::header;
use table_shape::table_refusal;

// Writes the n bags that are ahead of a node, two words each.
// 01: the read writes bags in order, answers their count, and touches no later word.
#[tactic(auto, using(crate::proofs::ReadLaws::turns))]
fn copy(lanes: Lanes, from: u32, n: u32, out: &mut [u32])
    requires room { 2 * n ≤ length out.old }
    requires from_value { count_of (ahead lanes.table.now from) ≡ some n }
    ensures { out.new ≡ laid (ahead lanes.entry.table.now from) out.old }
{
    let mut x = from;
    for i in 0..n {
        table_values::put_tag(out, 2 * (i as usize), lanes.value(x));
        x = lanes.next(x);
    }
}

// The read of a lane that is there: after refusal 26.
#[tactic(auto, unfolding(machine::specs::Calls::read_into), using(crate::proofs::ReadLaws::whole))]
fn read_lane(lanes: Lanes, l: u32, out: &mut [u32]) -> Result<u32, Refusal>
    requires { l < lane_count lanes.table.now }
    ensures { read_of result out.new ≡ read_into (lane lanes.entry.table.now l) out.old }
{
    // A read seeks 0, which is no tag. Kept: an Option would be opened at every bag.
    let bags = lanes.seek(l, 0)?.bags;
    // 01: out slice shorter than the bags. 02: two words for a tag.
    if out.len() < 2 * (bags as usize) {
        return Err(Refusal::Out);
    }
    copy(lanes, lanes.first(l), bags, out);
    Ok(bags)
}

// 01 and 02: refusals 3, 4, 26, 11 and 12, then the bags in order and their count.
#[tactic(auto, unfolding(machine::specs::Calls::read))]
pub fn read(table: &[u32], l: u32, out: &mut [u32]) -> Result<u32, Refusal>
    ensures { read_of result out.new ≡ read table.now l out.old }
{
    table_refusal(table)?;
    if header::lanes(table) <= l {
        return Err(Refusal::Lane);
    }
    read_lane(Lanes { table }, l, out)
}
