// Which tables are accepted: the tests of refusals 3 and 4, for a slice of any words.
// Kept: that a table is accepted stands in clauses, `WellFormed` and `length_ok`, and in no type: a tick writes the words
// lent to it one after another, and a struct that holds a `&mut` would have to keep it between any two of them.
#![tactic(auto)]

pub mod records;

ghost use Rattle.std.specs.Prelude.{◌≡◌, true, ◌+◌, ◌*◌, ◌≤◌, ◌<◌, length};
ghost use Rattle.std.proofs.Math.Option.{none};
ghost use Rattle.machine.specs.Tasks.{record_length};
ghost use Rattle.machine.specs.Table.{node_length, node_count, task_count, record_from, most_lanes};
ghost use Rattle.machine.specs.Shape.{
  lanes_ok,
  sizes_ok,
  length_ok,
  header_ok,
  node_ok,
  all_below,
  shape_ok,
};
ghost use Rattle.machine.specs.Calls.{table_refusal};
ghost use Rattle.machine.specs.Lent.{lent_to};
ghost use Rattle.table_layout.specs.Words.{HoldsHeader};
ghost use Rattle.table_record.specs.Coded.{struct_of, record_of};
ghost use Rattle.machine.specs.Results.{refusal_in};
ghost use Rattle.table_shape.specs.Promised.{first_ok, hats_ok, fits_in, nth_ok, task_ok, all_from};
ghost use Rattle.table_steps.specs.Owners.{OwnersOk};

use machine::refusal::Refusal;
use table_layout::places::{LEAST_LENGTH, NODE_WORDS, RECORD_WORDS, node_at, table_length};
use table_layout::{header, nodes};
use table_record::Task;
use table_steps::owners::Owners;
use table_values::value_ok;

// 02: one to four lanes.
pub fn lanes_ok(lanes: u32) -> bool
    ensures { result ≡ lanes_ok lanes }
{
    (1 <= lanes) & (lanes <= 4)
}

// 01: S slots (2 to 1,024), T tasks (1 to 16), growth (0 to 64). 02: S is at least twice the lanes.
pub fn sizes_ok(slots: u32, tasks: u32, growth: u32, lanes: u32) -> bool
    ensures { result ≡ sizes_ok slots tasks growth lanes }
{
    lanes <= slots / 2 && slots <= 1_024 && 1 <= tasks && tasks <= 16 && growth <= 64
}

// Refusal 3: under 37 words, header S, T, growth or (02) lanes out of range, or length not matching.
pub fn length_ok(table: &[u32]) -> bool
    ensures { result ≡ length_ok table.now }
{
    if table.len() < LEAST_LENGTH {
        return false;
    }
    let lanes = header::lanes(table);
    if !lanes_ok(lanes) {
        return false;
    }
    let slots = header::slots(table);
    let tasks = header::tasks(table);
    if !sizes_ok(slots, tasks, header::growth(table), lanes) {
        return false;
    }
    table.len() == table_length(slots, tasks)
}

// 01: hats are below S. 02: unused ones none. Those of lane l.
fn hats_ok(table: &[u32], l: u32) -> bool
    requires { HoldsHeader table.now × (l < most_lanes) }
    ensures { result ≡ hats_ok table.now l }
{
    let left = header::hat(table, l, 0);
    let right = header::hat(table, l, 1);
    if l < header::lanes(table) {
        let slots = header::slots(table);
        return (left < slots) & (right < slots);
    }
    (left == Task::NONE) & (right == Task::NONE)
}

// The hats of every lane.
fn all_hats_ok(table: &[u32]) -> bool
    requires { HoldsHeader table.now }
    ensures { result ≡ all_below most_lanes (hats_ok table.now) }
{
    for l in 0..4 {
        if !hats_ok(table, l) {
            return false;
        }
    }
    true
}

// 02: the task last dispatched is below T, and the last two words are 0.
pub fn header_ok(table: &[u32]) -> bool
    requires { HoldsHeader table.now }
    ensures { result ≡ header_ok table.now }
{
    header::dispatched(table) < header::tasks(table)
        && header::word_14(table) == 0
        && header::word_15(table) == 0
        && all_hats_ok(table)
}

// 01: links and V are as above. Of the node that words begin with.
fn node_ok(words: &[u32], slots: u32) -> bool
    requires { node_length ≤ length words.now }
    ensures { result ≡ first_ok slots words.now }
{
    records::node_or_none(slots, nodes::link(words, 0, 0))
        & records::node_or_none(slots, nodes::link(words, 1, 0))
        & value_ok(nodes::value(words, 0))
}

// Every node, in one pass that does not stop at the first that fails: nearly all tables pass, and a loop that always
// goes on tests several nodes at once. What is left of the words is a slice that moves on: with a node's number
// instead, the compiler would read each word by itself, and not four in one.
fn nodes_ok(table: &[u32]) -> bool
    requires { length_ok table.now ≡ true }
    ensures { result ≡ all_below (node_count table.now) (node_ok table.now) }
{
    let n = header::slots(table);
    let first = node_at(0);
    let mut rest = &table[first..];
    let mut ok = true;
    for _ in 0..n {
        ok = ok & node_ok(rest, n);
        rest = &rest[NODE_WORDS..];
    }
    ok
}

// A record, in a table of these sizes.
fn fits_in(table: &[u32], owners: &Owners, t: Task) -> bool
    requires { HoldsHeader table.now × OwnersOk owners.now }
    ensures { result ≡ fits_in table.now (record_of t) }
{
    records::record_ok(
        owners,
        t,
        header::slots(table),
        header::growth(table),
        header::lanes(table),
    )
}

// The record that stands at a place of some words.
fn record_in(words: &[u32], at: usize) -> Task
    requires { at + record_length ≤ length words.now }
    ensures { result ≡ struct_of (record_from words.now at) }
{
    Task::read(&words[at..at + RECORD_WORDS])
}

// Record k of those that words have from a place on, in the table of these sizes.
fn nth_ok(table: &[u32], words: &[u32], first: usize, owners: &Owners, k: u32) -> bool
    requires holds_header { HoldsHeader table.now × OwnersOk owners.now }
    requires record_length_in_bounds { first + record_length * k + record_length ≤ length words.now }
    ensures { result ≡ nth_ok table.now words.now first k }
{
    fits_in(
        table,
        owners,
        record_in(words, first + RECORD_WORDS * (k as usize)),
    )
}

// Those from one number up to another, which is not among them, in one pass.
fn range_ok(table: &[u32], words: &[u32], first: usize, owners: &Owners, from: u32, to: u32) -> bool
    requires holds_header { HoldsHeader table.now × OwnersOk owners.now }
    requires from_le_to { (from ≤ to) × (first + record_length * to ≤ length words.now) }
    ensures { result ≡ all_from from to (nth_ok table.now words.now first) }
{
    for k in from..to {
        if !nth_ok(table, words, first, owners, k) {
            return false;
        }
    }
    true
}

// The record of every task.
pub fn tasks_ok(table: &[u32]) -> bool
    requires { length_ok table.now ≡ true }
    ensures { result ≡ all_below (task_count table.now) (task_ok table.now) }
{
    let owners = table_steps::owners::owners();
    let first = node_at(header::slots(table));
    range_ok(table, table, first, &owners, 0, header::tasks(table))
}

// 01's refusal 4: shape broken.
pub fn shape_ok(table: &[u32]) -> bool
    requires { length_ok table.now ≡ true }
    ensures { result ≡ shape_ok table.now }
{
    header_ok(table) && nodes_ok(table) && tasks_ok(table)
}

// Whether a table is accepted, or why it is refused, in the order of 01's list.
pub fn table_refusal(table: &[u32]) -> Result<(), Refusal>
    ensures { refusal_in result ≡ table_refusal table.now none }
{
    if !length_ok(table) {
        return Err(Refusal::Table);
    }
    if !shape_ok(table) {
        return Err(Refusal::Shape);
    }
    Ok(())
}

// 02 (2026-14): the record of every task where own stands for that of task k. A number that is no task has no place
// there. The own record goes the way of the others, as words: the compiler then has the test of a record once, and
// keeps it within the loop.
fn lent_tasks_ok(table: &[u32], k: u32, own: Task) -> bool
    requires { length_ok table.now ≡ true }
    ensures { let ws = lent_to table.now k (record_of own) in
        result ≡ all_below (task_count ws) (task_ok ws) }
{
    let n = header::tasks(table);
    if n <= k {
        return tasks_ok(table);
    }
    let owners = table_steps::owners::owners();
    let first = node_at(header::slots(table));
    if !range_ok(table, table, first, &owners, 0, k) {
        return false;
    }
    let mut words = [0u32; RECORD_WORDS];
    own.write(&mut words);
    if !range_ok(table, &words, 0, &owners, 0, 1) {
        return false;
    }
    range_ok(table, table, first, &owners, k + 1, n)
}

// The shape of that table.
fn lent_shape_ok(table: &[u32], k: u32, own: Task) -> bool
    requires { length_ok table.now ≡ true }
    ensures { result ≡ shape_ok (lent_to table.now k (record_of own)) }
{
    header_ok(table) && nodes_ok(table) && lent_tasks_ok(table, k, own)
}

// Whether that table is accepted, or why it is refused. Kept beside `table_refusal`: two tests each, of other words, and
// a closure for the second would have the first's result in its `requires`.
pub fn lent_refusal(table: &[u32], k: u32, own: Task) -> Result<(), Refusal>
    ensures { refusal_in result ≡ table_refusal (lent_to table.now k (record_of own)) none }
{
    if !length_ok(table) {
        return Err(Refusal::Table);
    }
    if !lent_shape_ok(table, k, own) {
        return Err(Refusal::Shape);
    }
    Ok(())
}
