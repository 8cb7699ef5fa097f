// The words of a table by columns, and back: each order written from the other.
ghost use Rattle.std.specs.Prelude.{◌≡◌, true, ℕ, ◌*◌, ◌≤◌, ◌<◌, List, length};
ghost use Rattle.machine.specs.Table.{node_length, node_at};
ghost use Rattle.machine.specs.Shape.{length_ok};
ghost use Rattle.machine.specs.Snapshots.{transposed, reordered};
ghost use Rattle.call_snapshot.specs.Promised.{column_of, with_ends};

use table_layout::places::{NODE_WORDS, node_at};
use table_layout::{header, nodes};
use table_values::of_words;

// The two orders differ in the words of the nodes alone: those of so many slots, written from the other order.
pub trait Order {
    ghost order: { (S : ℕ) → List ℕ → List ℕ };

    fn write(from: &[u32], to: &mut [u32], slots: u32)
        requires { (length from.now ≡ node_length * slots) × (length to.old ≡ node_length * slots) }
        ensures { to.new ≡ order slots from.now };
}

// Node after node, as in a table.
pub struct ByNodes;

// Column after column, as in a snapshot.
pub struct ByColumns;

// Word c of every node.
#[tactic(auto, using(crate::proofs::Laws::Fronts::listing))]
fn write_column(ns: &[u32], c: usize, column: &mut [u32])
    requires { (c < node_length) × (length ns.now ≡ node_length * length column.old) }
    ensures { column.new ≡ column_of c (length column.old) ns.now }
{
    for (x, word) in column.iter_mut().enumerate() {
        *word = ns[NODE_WORDS * x + c];
    }
}

impl Order for ByColumns {
    ghost order = { λ S. transposed S node_length };

    fn write(from: &[u32], to: &mut [u32], slots: u32) {
        let n = slots as usize;
        for c in 0..NODE_WORDS {
            write_column(from, c, &mut to[n * c..n * (c + 1)]);
        }
    }
}

impl Order for ByNodes {
    ghost order = { λ S. transposed node_length S };

    fn write(from: &[u32], to: &mut [u32], slots: u32) {
        let n = slots as usize;
        let left = &from[..n];
        let right = &from[n..2 * n];
        let words = &from[2 * n..3 * n];
        let digits = &from[3 * n..];
        for x in 0..slots {
            let i = x as usize;
            nodes::write(to, x, left[i], right[i], of_words(digits[i], words[i]));
        }
    }
}

// The words of one slice, in another. Kept as a loop: `copy_from_slice` calls `memmove`, and the library asks for nothing
// from outside but `memset`. It is there once.
#[inline(never)]
fn copy(from: &[u32], to: &mut [u32])
    requires { length to.old ≡ length from.now }
    ensures { to.new ≡ from.now }
{
    for i in 0..from.len() {
        to[i] = from[i];
    }
}

// Header and records, which stand at the same places in both orders.
#[tactic(auto, using(crate::proofs::Laws::Parts::parts))]
fn copy_ends(from: &[u32], to: &mut [u32], slots: u32)
    requires { (node_at slots ≤ length from.now) × (length to.old ≡ length from.now) }
    ensures { to.new ≡ with_ends slots from.now to.old }
{
    let first = node_at(0);
    let end = node_at(slots);
    copy(&from[..first], &mut to[..first]);
    copy(&from[end..], &mut to[end..]);
}

// 02: header, every slot's L, every R, every V, every leading digit, then the tasks; or the same words in the table's
// order.
#[tactic(auto, using(crate::proofs::Laws::Parts::parts))]
pub fn write_in<O: Order>(from: &[u32], to: &mut [u32])
    requires { (length_ok from.now ≡ true) × (length to.old ≡ length from.now) }
    ensures { to.new ≡ reordered O.order from.now }
{
    let slots = header::slots(from);
    let first = node_at(0);
    let end = node_at(slots);
    copy_ends(from, to, slots);
    O::write(nodes::part(from), &mut to[first..end], slots);
}
