// The call begin, on the table and over a record by value: any slice, record and numbers. A refusal changes no word.
#![tactic(auto)]

mod call;

ghost use Rattle.std.specs.Prelude.{◌≡◌, List, ℕ, ◌<◌};
ghost use Rattle.machine.specs.Values.{number};
ghost use Rattle.machine.specs.Table.{task_count, task};
ghost use Rattle.machine.specs.Calls.{all_lanes, is_begun, seen_refusal, twice_refusal, begin};
ghost use Rattle.machine.specs.Lent.{begin_lent};
ghost use Rattle.table_record.specs.Coded.{record_of, task_meant};
ghost use Rattle.machine.specs.Results.{refusal_in, changed_of};
ghost use Rattle.call_begin.specs.OwnRecord.{WithOwn, is_push_of, words_in};
ghost use Rattle.machine.specs.Asked.{operation_meant};
ghost use Rattle.call_begin.specs.Seen.{standing};
ghost use Rattle.call_begin.specs.Tests.{place_refusal, own_refusal};
ghost use Rattle.std.proofs.Math.Option.{none};

use call::Call;
use lane_walk::Lanes;
use machine::Stored;
use machine::operation::Operation;
use machine::refusal::Refusal;
use table_layout::operations::is_idle;
use table_layout::{header, table};
use table_record::Task;
use table_shape::{lent_refusal, table_refusal};
use table_values::number;

// Whether a record is that of a busy push of that tag.
fn is_push_of(t: Task, tag: u64) -> bool
    ensures { result ≡ is_push_of tag (task_meant t) }
{
    t.operation == Task::PUSH && tag == number(t.argument)
}

// Whether the tag stands in any lane. 02: a refusal 11 stands before 16, so each lane is walked, also after one in
// which the tag stands.
#[tactic(auto, using(crate::proofs::SeenTests::walks))]
fn stands_in_any(lanes: Lanes, tag: u64) -> Result<bool, Refusal>
    ensures { result ≡ standing tag (all_lanes lanes.entry.table.now) }
{
    let mut found = false;
    for l in 0..header::lanes(lanes.table) {
        found |= lanes.seek(l, tag)?.found;
    }
    Ok(found)
}

// The lanes of a table, and a record that stands for those words of the task there.
#[derive(Clone, Copy)]
struct OwnRecord<'a> {
    lanes: Lanes<'a>,
    task: u32,
    own: Task,
}

impl<'a> OwnRecord<'a> {
    // Whether task j is a busy push of that tag.
    #[tactic(auto, using(crate::proofs::SeenTests::records))]
    fn pushes(&self, j: u32, tag: u64) -> bool
        requires { j < task_count self.now.lanes.table.now }
        ensures { (ws : List ℕ)
            → WithOwn self.now.lanes.table.now self.now.task self.now.own ws
            → result ≡ is_push_of tag (task ws j) }
    {
        if j == self.task {
            return is_push_of(self.own, tag);
        }
        is_push_of(table::task(self.lanes.table, j), tag)
    }

    // Whether any task is.
    #[tactic(auto, unfolding(machine::specs::Calls::is_begun))]
    fn is_begun(&self, tag: u64) -> bool
        ensures { (ws : List ℕ)
            → WithOwn self.now.lanes.table.now self.now.task self.now.own ws
            → result ≡ is_begun ws (task_count ws) tag }
    {
        for j in 0..header::tasks(self.lanes.table) {
            if self.pushes(j, tag) {
                return true;
            }
        }
        false
    }

    // 02: "a bag number that stands in the lane or is the argument of a busy push", of any lane: refusal 11 or 16.
    fn seen_refusal(&self, tag: u64) -> Result<(), Refusal>
        ensures { (ws : List ℕ)
            → WithOwn self.now.lanes.table.now self.now.task self.now.own ws
            → refusal_in result ≡ seen_refusal ws tag (all_lanes ws) none }
    {
        if stands_in_any(self.lanes, tag)? || self.is_begun(tag) {
            return Err(Refusal::Twice);
        }
        Ok(())
    }

    // The same for any operation; only a push walks.
    fn twice_refusal(&self, call: Call) -> Result<(), Refusal>
        ensures { (ws : List ℕ)
            → WithOwn self.now.lanes.table.now self.now.task self.now.own ws
            → refusal_in result ≡ twice_refusal ws (operation_meant call.operation) (number call.argument) none }
    {
        if call.operation != Operation::Push {
            return Ok(());
        }
        self.seen_refusal(number(call.argument))
    }

    // 02: 11 and 16 of a push; 01: 8.
    fn refusal(&self, call: Call) -> Result<(), Refusal>
        ensures { (ws : List ℕ)
            → WithOwn self.now.lanes.table.now self.now.task self.now.own ws
            → refusal_in result ≡ own_refusal ws self.now.task (operation_meant call.operation) call.argument }
    {
        self.twice_refusal(call)?;
        if !is_idle(self.own.operation) {
            return Err(Refusal::Busy);
        }
        Ok(())
    }
}

// 02: check 26; 01: check 5.
#[inline(never)]
fn place_refusal(lanes: Lanes, task: u32, l: u32) -> Result<(), Refusal>
    ensures { refusal_in result ≡ place_refusal lanes.entry.table.now task l }
{
    if header::lanes(lanes.table) <= l {
        return Err(Refusal::Lane);
    }
    if header::tasks(lanes.table) <= task {
        return Err(Refusal::Task);
    }
    Ok(())
}

// 01 and 02: refusals 3, 4, 26, 5, 6, 7, 11, 16 and 8, then the record of a task that begins a call.
// Kept: the numbers as C gives them, one by one; a `Call` is what has passed their tests.
#[tactic(auto, unfolding(machine::specs::Calls::begin))]
pub fn begin(
    table: &mut [u32],
    task: u32,
    l: u32,
    operation: u32,
    side: u32,
    argument: Stored,
) -> Result<(), Refusal>
    ensures { changed_of result table.new ≡ begin table.old task l operation side argument }
{
    table_refusal(table)?;
    let lanes = Lanes { table };
    place_refusal(lanes, task, l)?;
    let call = Call::new(l, operation, side, argument)?;
    let own = table::task(table, task);
    let asked = OwnRecord { lanes, task, own };
    asked.refusal(call)?;
    table::set_task(table, task, call.begun());
    Ok(())
}

// 2026-14, by value: the same of a task whose record is its caller's. 02: "It reads the table too and leaves it
// unchanged; in every test the lent record stands for that task's words there"; "a refusal changes no word of the
// record": the caller keeps its own.
pub fn begin_record(
    own: Task,
    table: &[u32],
    task: u32,
    l: u32,
    operation: u32,
    side: u32,
    argument: Stored,
) -> Result<Task, Refusal>
    ensures { changed_of result (words_in result own)
        ≡ begin_lent table.now (record_of own) task l operation side argument }
{
    lent_refusal(table, task, own)?;
    let lanes = Lanes { table };
    place_refusal(lanes, task, l)?;
    let call = Call::new(l, operation, side, argument)?;
    let asked = OwnRecord { lanes, task, own };
    asked.refusal(call)?;
    Ok(call.begun())
}
