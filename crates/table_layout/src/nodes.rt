// The nodes' words: the part of the table between the header and the tasks.
ghost use Rattle.std.specs.Prelude.{◌≡◌, ◌<◌};
ghost use Rattle.machine.specs.Sides.{side_of};
ghost use Rattle.machine.specs.Values.{number, bag_ok};
ghost use Rattle.machine.specs.Table.{node_part};
ghost use Rattle.table_layout.specs.Words.{
  HoldsNodes,
  HoldsNode,
  link_in,
  set_link_in,
  stored_in,
  set_stored_in,
  set_node_in,
};

use crate::header::slots;
use crate::places::{NODE_WORDS, VALUE, node_at};
use machine::Stored;

// They of a table.
pub fn part(table: &[u32]) -> &[u32]
    requires { HoldsNodes table.now }
    ensures { result.now ≡ node_part table.now }
{
    let from = node_at(0);
    let end = node_at(slots(table));
    &table[from..end]
}

// The link of node x on a side: 0 for L, 1 for R.
pub fn link(nodes: &[u32], side: u32, x: u32) -> u32
    requires { HoldsNode nodes.now x × (side < 2) }
    ensures { result ≡ link_in nodes.now (side_of side) x }
{
    nodes[NODE_WORDS * (x as usize) + (side as usize)]
}

pub fn set_link(nodes: &mut [u32], side: u32, x: u32, y: u32)
    requires { HoldsNode nodes.old x × (side < 2) }
    ensures { nodes.new ≡ set_link_in nodes.old (side_of side) x y }
{
    nodes[NODE_WORDS * (x as usize) + (side as usize)] = y;
}

pub fn value(nodes: &[u32], x: u32) -> Stored
    requires { HoldsNode nodes.now x }
    ensures { result ≡ stored_in nodes.now x }
{
    let at = NODE_WORDS * (x as usize) + VALUE;
    Stored {
        word: nodes[at],
        digit: nodes[at + 1],
    }
}

// Whether node x holds a bag, and the tag's number; without a value between, the compiler reads the two words one by
// one and does not take a word of 64 bits apart.
pub fn holds_bag(nodes: &[u32], x: u32) -> bool
    requires { HoldsNode nodes.now x }
    ensures { result ≡ bag_ok (stored_in nodes.now x) }
{
    let at = NODE_WORDS * (x as usize) + VALUE;
    tag::is_tag(nodes[at + 1], nodes[at])
}

pub fn bag(nodes: &[u32], x: u32) -> u64
    requires { HoldsNode nodes.now x }
    ensures { result ≡ number (stored_in nodes.now x) }
{
    let at = NODE_WORDS * (x as usize) + VALUE;
    tag::number(nodes[at + 1], nodes[at])
}

pub fn set_value(nodes: &mut [u32], x: u32, v: Stored)
    requires { HoldsNode nodes.old x }
    ensures { nodes.new ≡ set_stored_in nodes.old x v }
{
    let at = NODE_WORDS * (x as usize) + VALUE;
    nodes[at] = v.word;
    nodes[at + 1] = v.digit;
}

// All the words of a node.
pub fn write(nodes: &mut [u32], x: u32, l: u32, r: u32, v: Stored)
    requires { HoldsNode nodes.old x }
    ensures { nodes.new ≡ set_node_in nodes.old x l r v }
{
    let at = NODE_WORDS * (x as usize);
    nodes[at] = l;
    nodes[at + 1] = r;
    nodes[at + VALUE] = v.word;
    nodes[at + VALUE + 1] = v.digit;
}
