// The task records of a whole table, each by its task's number.
ghost use Rattle.std.specs.Prelude.{◌≡◌};
ghost use Rattle.machine.specs.Table.{node_count, record_at, record_words};
ghost use Rattle.std.proofs.lemmas.List.Edits.{sets};
ghost use Rattle.table_record.specs.Coded.{struct_of, record_of, SameCall};
ghost use Rattle.table_layout.specs.Words.{HoldsHeader, HoldsRecord};

use crate::header::slots;
use crate::places::{RECORD_WORDS, record_at};
use table_record::Task;

// The place of task k's record.
fn place(table: &[u32], k: u32) -> usize
    requires { HoldsHeader table.now }
    ensures { result ≡ record_at (node_count table.now) k }
{
    record_at(slots(table), k)
}

// The record of task k.
pub fn task(table: &[u32], k: u32) -> Task
    requires { HoldsRecord table.now k }
    ensures { result ≡ struct_of (record_words table.now k) }
{
    let at = place(table, k);
    Task::read(&table[at..at + RECORD_WORDS])
}

// The record of task k, written.
pub fn set_task(table: &mut [u32], k: u32, new: Task)
    requires { HoldsRecord table.old k }
    ensures { table.new
        ≡ sets table.old (record_at (node_count table.old) k) (record_of new) }
{
    let at = place(table, k);
    new.write(&mut table[at..at + RECORD_WORDS]);
}

// The same, where the record goes on with the call that stands there. Kept beside the one above, since a tick that goes
// on writes fewer words so.
pub fn set_further(table: &mut [u32], k: u32, new: Task)
    requires holds_record { HoldsRecord table.old k }
    requires same_call { SameCall (struct_of (record_words table.old k)) new }
    ensures { table.new
        ≡ sets table.old (record_at (node_count table.old) k) (record_of new) }
{
    let at = place(table, k);
    new.write_further(&mut table[at..at + RECORD_WORDS]);
}
