// The call push by list: any text, any slice, any numbers. A refusal changes no lent word.
#![tactic(auto)]

ghost use Rattle.std.specs.Prelude.{◌≡◌};
ghost use Rattle.machine.specs.Sides.{side_number};
ghost use Rattle.machine.specs.PushByList.{side_at, replied_of, push_by_list};
ghost use Rattle.call_push_by_list.specs.Replies.{by_list};
ghost use Rattle.call_push_by_list.specs.declared.ListRefusal.TheVariants.{Begin, List};

pub use airline_list::check;
use airline_list::{End, Fault, end_for};
use call_begin::begin;
use machine::Stored;
use machine::refusal::Refusal;
use table_record::Task;
use table_values::number;

// What a push by list is refused for: its list, or its begin.
#[derive(Clone, Copy, PartialEq, Eq)]
pub enum ListRefusal {
    List(Fault),
    Begin(Refusal),
}

impl From<Fault> for ListRefusal {
    ghost from_gives = { λ fault e. e ≡ List fault };

    fn from(fault: Fault) -> Self {
        ListRefusal::List(fault)
    }
}

impl From<Refusal> for ListRefusal {
    ghost from_gives = { λ refusal e. e ≡ Begin refusal };

    fn from(refusal: Refusal) -> Self {
        ListRefusal::Begin(refusal)
    }
}

// 01: 0 left, 1 right.
fn side(end: End) -> u32
    ensures { result ≡ side_number (side_at end) }
{
    match end {
        End::Left => 0,
        End::Right => 1,
    }
}

// 2026-13: refusals 27, 28 and 29 of the list, then those of a begin, which is made at the end for the tag.
pub fn push_by_list(
    list: &[u8],
    table: &mut [u32],
    task: u32,
    l: u32,
    argument: Stored,
) -> Result<(), ListRefusal>
    ensures { replied_of (by_list result) table.new
        ≡ push_by_list list.now table.old task l argument }
{
    let end = end_for(list, number(argument))?;
    begin(table, task, l, Task::PUSH, side(end), argument)?;
    Ok(())
}
