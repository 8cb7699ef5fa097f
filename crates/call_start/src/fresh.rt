// The words of a table that start writes.
ghost use Rattle.std.specs.Prelude.{◌≡◌, ℕ, ◌++◌, ◌-◌, ◌*◌, ◌≤◌, ◌<◌, length, take};
ghost use Rattle.std.proofs.lemmas.List.Edits.{sets};
ghost use Rattle.machine.specs.Sides.{Side};
ghost use Rattle.machine.specs.Values.{never};
ghost use Rattle.machine.specs.Tasks.{no_node, fresh, words_of};
ghost use Rattle.machine.specs.Table.{
  node_length,
  most_lanes,
  header_words,
  node_words,
  node_at,
  record_at,
};
ghost use Rattle.machine.specs.Calls.{times, start_hat, start_nodes, start_words};
ghost use Rattle.table_layout.specs.Words.{HoldsHeader, hat_in};

use table_layout::{header, nodes, places};
use table_record::Task;
use table_values::Mark;

// The sizes of a table, past the tests of refusals 25 and 1.
#[derive(Clone, Copy)]
pub struct Sizes {
    pub slots: u32,
    pub tasks: u32,
    pub growth: u32,
    pub lanes: u32,
    ghost in_range: { (lanes ≤ most_lanes) × (2 * lanes ≤ slots) × (1 ≤ tasks) },
}

impl Sizes {
    // The hats of all lanes, left first. 02: lane k starts with slots 2k and 2k + 1; the hats of unused lanes are none.
    fn hats(self) -> [u32; 8]
        ensures { (l : ℕ) → (s : Side) → l < most_lanes → hat_in result l s ≡ start_hat self.lanes l s }
    {
        let mut hats = [Task::NONE; 8];
        for x in 0..2 * self.lanes {
            hats[x as usize] = x;
        }
        hats
    }

    // The header: no tick is counted, and the hats are those of each lane.
    fn write_header(self, table: &mut [u32])
        requires { HoldsHeader table.old }
        ensures { table.new
            ≡ sets table.old 0
            (header_words self.slots self.tasks self.growth self.lanes 0 (self.tasks - 1) (start_hat self.lanes)) }
    {
        // 02: "A start writes T - 1 there", as the task last dispatched.
        let last = self.tasks - 1;
        header::write(
            table,
            self.slots,
            self.tasks,
            self.growth,
            self.lanes,
            last,
            &self.hats(),
        );
    }

    // The two sentinels of each lane, linked.
    fn write_sentinels(self, ns: &mut [u32])
        requires { node_length * self.slots ≤ length ns.old }
        ensures { take (node_length * (2 * self.lanes)) ns.new ≡ start_nodes self.lanes 0 }
    {
        for l in 0..self.lanes {
            nodes::write(ns, 2 * l, Task::NONE, 2 * l + 1, Mark::X.of(0));
            nodes::write(ns, 2 * l + 1, 2 * l, Task::NONE, Mark::X.of(1));
        }
    }

    // The nodes after them: no links, never used.
    fn write_unused(self, ns: &mut [u32])
        requires { node_length * self.slots ≤ length ns.old }
        ensures { take (node_length * self.slots) ns.new
            ≡ take (node_length * (2 * self.lanes)) ns.old
            ++ times (self.slots - 2 * self.lanes) (node_words no_node no_node never) }
    {
        for x in 2 * self.lanes..self.slots {
            nodes::write(ns, x, Task::NONE, Task::NONE, table_values::never());
        }
    }

    // The sentinels and the other nodes.
    fn write_nodes(self, ns: &mut [u32])
        requires { node_length * self.slots ≤ length ns.old }
        ensures { take (node_length * self.slots) ns.new
            ≡ start_nodes self.lanes 0
            ++ times (self.slots - 2 * self.lanes) (node_words no_node no_node never) }
    {
        self.write_sentinels(ns);
        self.write_unused(ns);
    }

    // All tasks idle.
    fn write_tasks(self, table: &mut [u32])
        requires { length table.old ≡ record_at self.slots self.tasks }
        ensures { table.new ≡ take (node_at self.slots) table.old ++ times self.tasks (words_of fresh) }
    {
        for k in 0..self.tasks {
            let at = places::record_at(self.slots, k);
            Task::fresh().write(&mut table[at..at + places::RECORD_WORDS]);
        }
    }

    // The whole table.
    pub fn write(self, table: &mut [u32])
        requires { length table.old ≡ record_at self.slots self.tasks }
        ensures { table.new ≡ start_words self.slots self.tasks self.growth self.lanes }
    {
        self.write_header(table);
        let from = places::node_at(0);
        self.write_nodes(&mut table[from..]);
        self.write_tasks(table);
    }
}
