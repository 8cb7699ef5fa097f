// The calls take and put (2026-10), on any slices: a snapshot of a table by columns, and the table put back. A refusal
// changes no lent word. A put is tested by the snapshot's own words, so its result needs no other place.
#![tactic(auto)]

mod columns;
mod orders;

ghost use Rattle.std.specs.Prelude.{◌≡◌, true};
ghost use Rattle.std.proofs.Math.Option.{none};
ghost use Rattle.machine.specs.Shape.{length_ok, shape_ok};
ghost use Rattle.machine.specs.Calls.{table_refusal};
ghost use Rattle.machine.specs.Results.{changed_of, refusal_in};
ghost use Rattle.machine.specs.Snapshots.{by_nodes, take_snapshot, put_back};

use columns::columns_ok;
use machine::refusal::Refusal;
use orders::{ByColumns, ByNodes, write_in};
use table_shape::{header_ok, length_ok, table_refusal, tasks_ok};

// 02: refusal 22 first, then 3 and 4 of the table.
#[tactic(auto, using(crate::proofs::Laws::Replies::takes))]
pub fn take(table: &[u32], snapshot: &mut [u32]) -> Result<(), Refusal>
    ensures { changed_of result snapshot.new
        ≡ take_snapshot table.now snapshot.old }
{
    if snapshot.len() != table.len() {
        return Err(Refusal::Snapshot);
    }
    table_refusal(table)?;
    write_in::<ByColumns>(table, snapshot);
    Ok(())
}

// The shape of the table that a snapshot puts back. Header and records stand at the same places in both.
#[tactic(auto, using(crate::proofs::Laws::ResultTests::results))]
fn result_shape_ok(snapshot: &[u32]) -> bool
    requires { length_ok snapshot.now ≡ true }
    ensures { result ≡ shape_ok (by_nodes snapshot.now) }
{
    header_ok(snapshot) && columns_ok(snapshot) && tasks_ok(snapshot)
}

// Whether that table is accepted, or why it is refused.
#[tactic(auto, using(crate::proofs::Laws::ResultTests::results))]
fn result_refusal(snapshot: &[u32]) -> Result<(), Refusal>
    ensures { refusal_in result ≡ table_refusal (by_nodes snapshot.now) none }
{
    if !length_ok(snapshot) {
        return Err(Refusal::Table);
    }
    if !result_shape_ok(snapshot) {
        return Err(Refusal::Shape);
    }
    Ok(())
}

// 02: refusal 22 first, then 3 and 4 of the result, before it is written. Kept beside `take`: the two test other words,
// and lend table and snapshot the other way round.
#[tactic(auto, using(crate::proofs::Laws::Replies::puts))]
pub fn put(snapshot: &[u32], table: &mut [u32]) -> Result<(), Refusal>
    ensures { changed_of result table.new ≡ put_back snapshot.now table.old }
{
    if snapshot.len() != table.len() {
        return Err(Refusal::Snapshot);
    }
    result_refusal(snapshot)?;
    write_in::<ByNodes>(snapshot, table);
    Ok(())
}
