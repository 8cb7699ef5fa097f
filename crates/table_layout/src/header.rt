// The header of a table, word by word. Only this file and the definitions of tables say where in a header a word
// stands.
// Kept: a function for each word, named as its definition is. One reader of any place would have the crates above name
// places.
ghost use Rattle.std.specs.Prelude.{◌≡◌, ◌<◌};
ghost use Rattle.std.proofs.lemmas.List.Edits.{sets};
ghost use Rattle.machine.specs.Sides.{side_of};
ghost use Rattle.machine.specs.Table.{
  header_length,
  node_count,
  task_count,
  growth,
  lane_count,
  tick_count,
  dispatched,
  most_lanes,
  hat_at,
  hat,
  word14,
  word15,
  header_words,
  set_hat,
  set_tick_count,
  set_dispatched,
};
ghost use Rattle.table_layout.specs.Words.{HoldsHeader, hat_in};

// 02: S, T, growth, lanes, tick count, the task last dispatched, four pairs of hats, 0, 0.
const NODE_COUNT: usize = 0;

const TASK_COUNT: usize = 1;

const GROWTH: usize = 2;

const LANE_COUNT: usize = 3;

const TICK_COUNT: usize = 4;

const DISPATCHED: usize = 5;

// The left hat of lane 0: a hat is at this place plus twice its lane plus its side.
const HATS: usize = 6;

const WORD_14: usize = 14;

const WORD_15: usize = 15;

pub fn slots(table: &[u32]) -> u32
    requires { HoldsHeader table.now }
    ensures { result ≡ node_count table.now }
{
    table[NODE_COUNT]
}

pub fn tasks(table: &[u32]) -> u32
    requires { HoldsHeader table.now }
    ensures { result ≡ task_count table.now }
{
    table[TASK_COUNT]
}

pub fn growth(table: &[u32]) -> u32
    requires { HoldsHeader table.now }
    ensures { result ≡ growth table.now }
{
    table[GROWTH]
}

pub fn lanes(table: &[u32]) -> u32
    requires { HoldsHeader table.now }
    ensures { result ≡ lane_count table.now }
{
    table[LANE_COUNT]
}

pub fn tick_count(table: &[u32]) -> u32
    requires { HoldsHeader table.now }
    ensures { result ≡ tick_count table.now }
{
    table[TICK_COUNT]
}

pub fn set_tick_count(table: &mut [u32], n: u32)
    requires { HoldsHeader table.old }
    ensures { table.new ≡ set_tick_count n table.old }
{
    table[TICK_COUNT] = n;
}

// The task last dispatched.
pub fn dispatched(table: &[u32]) -> u32
    requires { HoldsHeader table.now }
    ensures { result ≡ dispatched table.now }
{
    table[DISPATCHED]
}

pub fn set_dispatched(table: &mut [u32], k: u32)
    requires { HoldsHeader table.old }
    ensures { table.new ≡ set_dispatched k table.old }
{
    table[DISPATCHED] = k;
}

// The place of a lane's hat on a side.
fn hat_at(lane: u32, side: u32) -> usize
    requires { (lane < most_lanes) × (side < 2) }
    ensures { (result ≡ hat_at lane (side_of side)) × (result < header_length) }
{
    HATS + 2 * (lane as usize) + side as usize
}

// A lane's hat on a side.
pub fn hat(table: &[u32], lane: u32, side: u32) -> u32
    requires { HoldsHeader table.now × (lane < most_lanes) × (side < 2) }
    ensures { result ≡ hat table.now lane (side_of side) }
{
    table[hat_at(lane, side)]
}

pub fn set_hat(table: &mut [u32], lane: u32, side: u32, x: u32)
    requires { HoldsHeader table.old × (lane < most_lanes) × (side < 2) }
    ensures { table.new ≡ set_hat lane (side_of side) x table.old }
{
    let at = hat_at(lane, side);
    table[at] = x;
}

// The two words that are always 0.
pub fn word_14(table: &[u32]) -> u32
    requires { HoldsHeader table.now }
    ensures { result ≡ word14 table.now }
{
    table[WORD_14]
}

pub fn word_15(table: &[u32]) -> u32
    requires { HoldsHeader table.now }
    ensures { result ≡ word15 table.now }
{
    table[WORD_15]
}

// All the words of a header. The hats are given by lane, left first.
pub fn write(
    table: &mut [u32],
    slots: u32,
    tasks: u32,
    growth: u32,
    lanes: u32,
    last: u32,
    hats: &[u32; 8],
)
    requires { HoldsHeader table.old }
    ensures { table.new
        ≡ sets table.old 0 (header_words slots tasks growth lanes 0 last (hat_in hats.now)) }
{
    table[NODE_COUNT] = slots;
    table[TASK_COUNT] = tasks;
    table[GROWTH] = growth;
    table[LANE_COUNT] = lanes;
    table[TICK_COUNT] = 0;
    table[DISPATCHED] = last;
    table[HATS..WORD_14].copy_from_slice(hats);
    table[WORD_14] = 0;
    table[WORD_15] = 0;
}
