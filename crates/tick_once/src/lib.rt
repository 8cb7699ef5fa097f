// One tick on a table that has passed the tests of refusals 3 and 4.
#![tactic(auto)]

ghost use Rattle.std.specs.Prelude.{◌≡◌, ◌<◌};
ghost use Rattle.machine.specs.Table.{node_count, record_words};
ghost use Rattle.machine.specs.Allocate.{allocate};
ghost use Rattle.machine.specs.Shape.{WellFormed};
ghost use Rattle.machine.specs.Calls.{tick_on};
ghost use Rattle.table_record.specs.Coded.{struct_of};
ghost use Rattle.machine.specs.Results.{ticked_of};
ghost use Rattle.tick_once.specs.Steps.{MayTick, found_at31, made};

use line_choice::line;
use line_take::{line28, line31};
use machine::answer::Answer;
use machine::refusal::Refusal;
use table_layout::operations::{goal_of, is_idle};
use table_layout::places::node_at;
use table_layout::{header, table};
use table_record::Task;
use table_search::first_free;
use tick_store::finish;

// The node that line 31 takes, or none. The line is refused where D is none, and does not search then. None is kept as
// the number that the search gives and that the table's words hold, which line 31 writes.
fn found_at_31(table: &[u32], old: Task, hint: u32) -> u32
    requires { WellFormed table.now × (hint < node_count table.now) }
    ensures { result ≡ found_at31 old (allocate table.now hint) }
{
    if old.registers[Task::D] == Task::NONE {
        return Task::NONE;
    }
    first_free(table, hint)
}

// The tick of the busy task k, whose record is given. Only lines 28 and 31 search for a node, and the search stands
// beside each: before all lines it would take the processor's registers from the others.
fn make(table: &mut [u32], k: u32, old: Task, hint: u32) -> Result<Answer, Refusal>
    requires may_tick { MayTick table.old k hint }
    requires value { old ≡ struct_of (record_words table.old k) }
    ensures { ticked_of result table.new ≡ made table.old k hint }
{
    let lane = old.lane;
    let side = old.side;
    let goal = goal_of(old.operation, header::growth(table), old.argument);
    let hat = header::hat(table, lane, side);
    let from = node_at(0);
    let end = node_at(header::slots(table));
    match old.step {
        28 => {
            let found = first_free(table, hint);
            let done = line28(&mut table[from..end], hat, old, goal, found);
            finish(table, lane, side, k, Ok(done))
        }
        31 => {
            let found = found_at_31(table, old, hint);
            let done = line31(&mut table[from..end], hat, old, goal, found);
            finish(table, lane, side, k, done)
        }
        _ => {
            let done = line(&mut table[from..end], hat, old, goal);
            finish(table, lane, side, k, done)
        }
    }
}

// 01: checks 5, 9, 10, 11.
pub fn tick_once(table: &mut [u32], task: u32, hint: u32) -> Result<Answer, Refusal>
    requires { WellFormed table.old }
    ensures { ticked_of result table.new ≡ tick_on table.old task hint }
{
    if header::tasks(table) <= task {
        return Err(Refusal::Task);
    }
    if header::slots(table) <= hint {
        return Err(Refusal::Hint);
    }
    let old = table::task(table, task);
    if is_idle(old.operation) {
        return Err(Refusal::Idle);
    }
    make(table, task, old, hint)
}
