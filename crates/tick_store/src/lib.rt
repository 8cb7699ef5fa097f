// What a line's outcome comes to in the table: a refusal changes nothing, a tick that is made is stored.
#![tactic(auto)]

ghost use Rattle.std.specs.Prelude.{◌≡◌, ◌<◌, IfOk};
ghost use Rattle.machine.specs.Sides.{side_of};
ghost use Rattle.machine.specs.Table.{most_lanes};
ghost use Rattle.table_layout.specs.Words.{HoldsRecord};
ghost use Rattle.machine.specs.Results.{said, ticked_of};
ghost use Rattle.machine.specs.Answers.{is_going};
ghost use Rattle.tick_store.specs.Outcomes.{GoesOn, recorded, finished};

use line_parts::ends::Done;
use machine::answer::Answer;
use machine::refusal::Refusal;
use std::num::wrapping_add_u32;
use table_layout::header::{set_hat, set_tick_count, tick_count};
use table_layout::table;
use table_record::Task;

// The record after a tick that is made. A task that goes on keeps its call, which is not written again.
fn set_next(table: &mut [u32], task: u32, next: Task, going: bool)
    requires { HoldsRecord table.old task × GoesOn table.old task going next }
    ensures { table.new ≡ recorded table.old task next }
{
    if going {
        table::set_further(table, task, next);
        return;
    }
    table::set_task(table, task, next);
}

// The lane's hat, the record and the tick count after a tick that is made, and its answer; or the refusal of its line,
// which leaves the table. The hat is that of a lane and a side.
pub fn finish(
    table: &mut [u32],
    lane: u32,
    side: u32,
    k: u32,
    done: Result<Done, Refusal>,
) -> Result<Answer, Refusal>
    requires lane_lt_most_lanes { (lane < most_lanes) × (side < 2) × HoldsRecord table.old k }
    requires goes_on { IfOk done (λ d. GoesOn table.old k (is_going (said d.answer)) d.task) }
    ensures { ticked_of result table.new ≡ finished table.old lane (side_of side) k done }
{
    let made = done?;
    set_hat(table, lane, side, made.hat);
    set_next(table, k, made.task, made.answer.is_going());
    let n = wrapping_add_u32(tick_count(table), 1);
    set_tick_count(table, n);
    Ok(made.answer)
}
