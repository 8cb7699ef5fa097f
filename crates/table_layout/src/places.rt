// Where the parts of a table stand, and how many words a header, a node and a record have.
ghost use Rattle.std.specs.Prelude.{◌≡◌};
ghost use Rattle.machine.specs.Table.{node_at, record_at, table_length};

// The nodes stand after the header, the records after the nodes.
const HEADER: usize = 16;

pub const NODE_WORDS: usize = 4;

pub const RECORD_WORDS: usize = 13;

// The words of a node's value, after its links.
pub const VALUE: usize = 2;

// 02: refusal 3 for fewer than 37 words, the length of two slots and one task.
pub const LEAST_LENGTH: usize = 37;

// The length of the largest table.
pub const LARGEST_LENGTH: usize = 4_320;

// The place of node x; of S, the place after the nodes.
pub fn node_at(x: u32) -> usize
    ensures { result ≡ node_at x }
{
    HEADER + NODE_WORDS * (x as usize)
}

// The place of task k's record in a table of so many nodes.
pub fn record_at(slots: u32, k: u32) -> usize
    ensures { result ≡ record_at slots k }
{
    HEADER + NODE_WORDS * (slots as usize) + RECORD_WORDS * (k as usize)
}

// 02: 16 + 4S + 13T words.
pub fn table_length(slots: u32, tasks: u32) -> usize
    ensures { result ≡ table_length slots tasks }
{
    record_at(slots, tasks)
}
