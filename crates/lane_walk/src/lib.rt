// The walk along a lane, for every call that reads one: from its first node to the next, what a node holds, and all its
// bags counted, a tag sought among them. 01: "the lane is read from the left hat's R along R while V is a bag".
#![tactic(auto)]

ghost use Rattle.std.specs.Prelude.{◌≡◌, ◌≢◌, ◌<◌, MatchResult};
ghost use Rattle.machine.specs.Sides.{left, right};
ghost use Rattle.machine.specs.Values.{number, bag_ok};
ghost use Rattle.machine.specs.Tasks.{no_node};
ghost use Rattle.machine.specs.Table.{node_count, lane_count, hat, link, value_words};
ghost use Rattle.machine.specs.Shape.{WellLinked};
ghost use Rattle.machine.specs.Calls.{lane};

use machine::Stored;
use machine::refusal::Refusal;
use table_layout::{header, nodes};
use table_record::Task;

// What a walk along R to a node without a bag finds: how many bags, and whether the one sought is among them.
#[derive(Clone, Copy)]
pub struct Walk {
    pub bags: u32,
    pub found: bool,
}

// What a walk to a place of a lane finds: how many bags the lane has, and the node of that place, or past the last bag
// the node after it.
#[derive(Clone, Copy)]
pub struct Located {
    pub bags: u32,
    pub node: u32,
}

// A table whose lanes can be walked: its length, header and links pass the tests of refusals 3 and 4.
#[derive(Clone, Copy)]
pub struct Lanes<'a> {
    pub table: &'a [u32],
    ghost linked: { WellLinked table.now },
}

impl<'a> Lanes<'a> {
    ghost use Rattle.lane_walk.specs.Walks.{walk_of, located_of};

    // The words of a node's value.
    #[tactic(auto, using(crate::proofs::Laws::Nodes::reads))]
    pub fn value(self, x: u32) -> Stored
        requires { x < node_count self.table.now }
        ensures { result ≡ value_words self.entry.table.now x }
    {
        nodes::value(nodes::part(self.table), x)
    }

    // Whether a node holds a bag. 01: a link none before a slot without a bag is refused.
    // Kept: a node or none is one word, as the table has it: those who walk over bags that were counted meet no none,
    // and would have to open an Option at each of them.
    #[tactic(auto, using(crate::proofs::Laws::Nodes::reads))]
    fn holds_bag(self, x: u32) -> Result<bool, Refusal>
        requires { x ≢ no_node → x < node_count self.table.now }
        ensures { MatchResult result (λ b. (x ≢ no_node) × (b ≡ bag_ok (value_words self.entry.table.now x)))
            (λ e. (x ≡ no_node) × (e ≡ Refusal.NoSlot)) }
    {
        if x == Task::NONE {
            return Err(Refusal::NoSlot);
        }
        Ok(nodes::holds_bag(nodes::part(self.table), x))
    }

    // The number of a node's bag.
    #[tactic(auto, using(crate::proofs::Laws::Nodes::reads))]
    fn bag(self, x: u32) -> u64
        requires { x < node_count self.table.now }
        ensures { result ≡ number (value_words self.entry.table.now x) }
    {
        nodes::bag(nodes::part(self.table), x)
    }

    // The node after a node, or none.
    #[tactic(auto, using(crate::proofs::Laws::Nodes::reads))]
    pub fn next(self, x: u32) -> u32
        requires { x < node_count self.table.now }
        ensures { result ≡ link self.entry.table.now right x }
    {
        nodes::link(nodes::part(self.table), 1, x)
    }

    // The first node of a lane, or none.
    #[tactic(auto, using(crate::proofs::Laws::Nodes::reads))]
    pub fn first(self, l: u32) -> u32
        requires { l < lane_count self.table.now }
        ensures { result ≡ link self.entry.table.now right (hat self.entry.table.now l left) }
    {
        self.next(header::hat(self.table, l, 0))
    }

    // A lane walked for a tag that is sought. 01: link none before a slot without a bag, or S bags with no end.
    #[tactic(auto, using(crate::proofs::Laws::Tally::ends))]
    pub fn seek(self, l: u32, sought: u64) -> Result<Walk, Refusal>
        requires { l < lane_count self.table.now }
        ensures { result ≡ walk_of sought (lane self.entry.table.now l) }
    {
        let mut x = self.first(l);
        let mut found = false;
        for n in 0..header::slots(self.table) {
            if !self.holds_bag(x)? {
                return Ok(Walk { bags: n, found });
            }
            found |= sought == self.bag(x);
            x = self.next(x);
        }
        Err(Refusal::NoSlot)
    }

    // A lane walked to a place, from 0, and on to its end. Kept beside `seek`: the two share a loop's head, and what they do
    // at a node is different.
    #[tactic(auto, using(crate::proofs::Laws::Places::ends))]
    pub fn locate(self, l: u32, place: usize) -> Result<Located, Refusal>
        requires { l < lane_count self.table.now }
        ensures { let ws = self.entry.table.now in
            result ≡ located_of ws place (link ws right (hat ws l left)) (lane ws l) }
    {
        let mut x = self.first(l);
        let mut there = x;
        for n in 0..header::slots(self.table) {
            if !self.holds_bag(x)? {
                return Ok(Located {
                    bags: n,
                    node: there,
                });
            }
            x = self.next(x);
            if (n as usize) < place {
                there = x;
            }
        }
        Err(Refusal::NoSlot)
    }
}
