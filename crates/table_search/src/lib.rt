// The search for a free node: what the hats and the tasks reach is marked, and the first node without a mark is it.
#![tactic(auto)]

ghost use Rattle.std.specs.Prelude.{◌≡◌, true, not, cond, eqb, ◌<◌, ◌≤◌, position};
ghost use Rattle.machine.specs.Tasks.{no_node};
ghost use Rattle.machine.specs.Table.{node_count};
ghost use Rattle.machine.specs.Shape.{length_ok, sizes_of, WellSized};
ghost use Rattle.machine.specs.Allocate.{held_by, largest_count, first_unmarked, unmarked, allocate};
ghost use Rattle.table_record.specs.Coded.{task_meant};
ghost use Rattle.table_steps.specs.Bits.{Exact};
ghost use Rattle.table_search.specs.Marked.{
  with_mark,
  with_marks,
  visited,
  spread,
  hats,
  held,
  Searchable,
  node_or_none,
};

use std::marker::Model;
use table_layout::table::task;
use table_layout::{header, nodes};
use table_record::Task;
use table_steps::held::{A, B, C, D, Held, entry};

// Whether each node has a mark, and the nodes that have one, in the order in which they got it. The queue has a place
// for each node. Both are lent: with arrays of its own, each mark would read the queue's end from memory and write it
// back, which made the same search in Rust, among 1,024 nodes, half as long again.
#[derive(Drop)]
struct Marking<'a> {
    marks: &'a mut [bool],
    queue: &'a mut [u16],
    tail: usize,
}

// Clauses see how many nodes there are, and what the definitions mark of them.
impl<'a> Model for Marking<'a> {
    ghost use Rattle.table_search.specs.Marked.{Marked};

    ghost Value = { Marked };

    ghost use Rattle.table_search.specs.Arrays.{marked_of, Ready};

    ghost view = { λ m. marked_of m.marks.now m.queue.now m.tail };

    ghost invariant = { λ m. Ready m.marks.now m.queue.now m.tail };
}

impl Marking<'_> {
    // Marks x and queues it, unless it is no node or has a mark.
    fn mark(&mut self, x: u32)
        ensures { self.new ≡ with_mark self.old x }
    {
        let i = x as usize;
        if i < self.marks.len() && !self.marks[i] {
            self.marks[i] = true;
            self.queue[self.tail] = x as u16;
            self.tail += 1;
        }
    }

    // Marks the hats of every lane.
    fn mark_hats(&mut self, table: &[u32])
        requires { WellSized (sizes_of table.now) }
        ensures { self.new ≡ with_marks self.old (hats table.now) }
    {
        for lane in 0..header::lanes(table) {
            self.mark(header::hat(table, lane, 0));
            self.mark(header::hat(table, lane, 1));
        }
    }

    // Marks the node x of a register if its bit was found to be 1.
    fn mark_found(&mut self, found: u8, x: u32)
        ensures { self.new ≡ with_mark self.old (cond (not (eqb found 0)) x no_node) }
    {
        prove!(self.marks.len() <= Task::NONE as usize);
        if found != 0 {
            self.mark(x);
        }
    }

    // Marks what a task holds: the nodes of the registers that hold at its step.
    fn mark_held(&mut self, held: &Held, task: Task)
        requires { Exact held.now }
        ensures { self.new ≡ with_marks self.old (held_by (task_meant task)) }
    {
        let e = entry(held, task.step);
        self.mark_found(e / A % 2, task.registers[Task::A]);
        self.mark_found(e / B % 2, task.registers[Task::B]);
        self.mark_found(e / C % 2, task.registers[Task::C]);
        self.mark_found(e / D % 2, task.registers[Task::D]);
    }

    // Marks what each task holds.
    fn mark_tasks(&mut self, table: &[u32])
        requires { WellSized (sizes_of table.now) }
        ensures { self.new ≡ with_marks self.old (held table.now) }
    {
        // Once here, and not at each task.
        let held = table_steps::held::held();
        for k in 0..header::tasks(table) {
            self.mark_held(&held, task(table, k));
        }
    }

    // Marks both links of the node at a place of the queue.
    fn visit(&mut self, table: &[u32], place: usize)
        requires { Searchable table.now self.old × (place < self.old.marking.tail) }
        ensures { self.new ≡ visited table.now self.old place }
    {
        prove!(place < self.tail);
        let x = self.queue[place] as u32;
        let nodes = nodes::part(table);
        let left = nodes::link(nodes, 0, x);
        let right = nodes::link(nodes, 1, x);
        self.mark(left);
        self.mark(right);
    }

    // Visits the queue until its end, which moves on as nodes are marked: hence no `for`.
    fn spread(&mut self, table: &[u32])
        requires { Searchable table.now self.old }
        ensures { self.new ≡ spread table.now self.old }
    {
        let mut head = 0;
        while head < self.tail {
            self.visit(table, head);
            head += 1;
        }
    }

    // The first node from the hint on, going round, that has no mark.
    fn first_unmarked(&self, hint: u32) -> Option<u32>
        requires { hint < self.now.nodes }
        ensures { node_or_none result
            ≡ first_unmarked self.now.nodes self.now.marking.marks self.now.nodes hint }
    {
        let from = hint as usize;
        if let Some(i) = first_without(&self.marks[from..]) {
            return Some((from + i) as u32);
        }
        let i = first_without(&self.marks[..from])?;
        Some(i as u32)
    }

    // The first free node from the hint on, going round, where nothing is marked yet. The marking is taken by value, so
    // that the queue's end stays in a register.
    fn first_free(mut self, table: &[u32], hint: u32) -> Option<u32>
        requires sized { length_ok table.now ≡ true }
        requires low { hint < node_count table.now }
        requires same_nodes { self.nodes ≡ node_count table.now }
        requires nothing { self.marking ≡ unmarked }
        ensures { node_or_none result ≡ allocate table.now hint }
    {
        self.mark_hats(table);
        self.mark_tasks(table);
        self.spread(table);
        self.first_unmarked(hint)
    }
}

// The first place without a mark.
fn first_without(marks: &[bool]) -> Option<usize>
    ensures { result ≡ position not marks.now }
{
    marks.iter().position(|mark| !*mark)
}

// The first free node from the hint on, going round, marked in arrays of N places: the fewer, the fewer are cleared.
fn free<const N: usize>(table: &[u32], hint: u32) -> Option<u32>
    requires sized { length_ok table.now ≡ true }
    requires low { hint < node_count table.now }
    requires places { (node_count table.now ≤ N) × (N ≤ largest_count) }
    ensures { node_or_none result ≡ allocate table.now hint }
{
    let n = header::slots(table) as usize;
    let mut marks = [false; N];
    let mut queue = [0u16; N];
    let marking = Marking {
        marks: &mut marks[..n],
        queue: &mut queue,
        tail: 0,
    };
    marking.first_free(table, hint)
}

// The first free node from the hint on, going round, or none. Set into a tick's loop, it would send words of every tick
// to the stack and back.
#[inline(never)]
pub fn first_free(table: &[u32], hint: u32) -> u32
    requires { (length_ok table.now ≡ true) × (hint < node_count table.now) }
    ensures { result ≡ allocate table.now hint }
{
    let found = if header::slots(table) <= 128 {
        free::<128>(table, hint)
    } else {
        free::<1024>(table, hint)
    };
    found.unwrap_or(Task::NONE)
}
