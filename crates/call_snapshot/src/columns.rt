// The columns of a snapshot, tested by themselves: links, and values with their leading digits.
ghost use Rattle.std.specs.Prelude.{◌≡◌, true, length};
ghost use Rattle.machine.specs.Shape.{length_ok};
ghost use Rattle.call_snapshot.specs.Promised.{links_ok, values_ok, columns_ok};

use table_layout::{header, nodes};
use table_shape::records::node_or_none;
use table_values::{of_words, value_ok};

// 01: a slot number below S, or 65,535 for none. One pass that does not stop at the first word that fails, as in the
// test of a table's nodes.
#[tactic(auto, using(crate::proofs::Laws::AllBelow::testing))]
fn links_ok(links: &[u32], slots: u32) -> bool
    ensures { result ≡ links_ok slots links.now }
{
    let mut ok = true;
    for link in links {
        ok &= node_or_none(slots, *link);
    }
    ok
}

// 01: V; 02: with its leading digit. Kept beside `links_ok`: that reads one column and this two, and one function over
// any test would be longer than both.
#[tactic(auto, using(crate::proofs::Laws::AllBelow::testing))]
fn values_ok(words: &[u32], digits: &[u32]) -> bool
    requires { length digits.now ≡ length words.now }
    ensures { result ≡ values_ok words.now digits.now }
{
    let mut ok = true;
    for (x, word) in words.iter().enumerate() {
        ok &= value_ok(of_words(digits[x], *word));
    }
    ok
}

// The two columns of links, which stand side by side, and the two of values.
#[tactic(auto, using(crate::proofs::Laws::Parts::parts))]
pub fn columns_ok(snapshot: &[u32]) -> bool
    requires { length_ok snapshot.now ≡ true }
    ensures { result ≡ columns_ok snapshot.now }
{
    let slots = header::slots(snapshot);
    let n = slots as usize;
    let columns = nodes::part(snapshot);
    links_ok(&columns[..2 * n], slots) & values_ok(&columns[2 * n..3 * n], &columns[3 * n..])
}
