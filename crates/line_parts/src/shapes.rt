// The shapes that several lines share: a link followed into a register, and a step by a mark of A's node.
ghost use Rattle.std.specs.Prelude.{◌≡◌, true};
ghost use Rattle.machine.specs.Sides.{side_of};
ghost use Rattle.machine.specs.Values.{decode, value_ok};
ghost use Rattle.line_parts.specs.Lent.{Ready, Follows, follow_done, mark_done};

use crate::ends;
use crate::ends::Done;
use machine::Stored;
use machine::refusal::Refusal;
use table_layout::nodes;
use table_record::Task;

// The lines 3, 18, 40, 69 and 70: the register `to` = the link on a side of the node in the register `from`;
// none goes to a step, else to another.
pub fn follow(
    ns: &[u32],
    hat: u32,
    t: Task,
    side: u32,
    from: usize,
    to: usize,
    none: u32,
    some: u32,
) -> Result<Done, Refusal>
    requires { Follows ns.now t side from to }
    ensures { result ≡ follow_done ns.now hat t (side_of side) from to none some }
{
    let x = ends::node(t, from)?;
    let y = nodes::link(ns, side, x);
    let step = if y == Task::NONE { none } else { some };
    Ok(Done::next(hat, t.with(to, y), step))
}

// The lines 8 and 68: A.V is a mark goes to a step, else to another.
pub fn by_mark(
    ns: &[u32],
    hat: u32,
    t: Task,
    mark: Stored,
    yes: u32,
    no: u32,
) -> Result<Done, Refusal>
    requires { Ready ns.now t × (value_ok mark ≡ true) }
    ensures { result ≡ mark_done ns.now hat t (decode mark) yes no }
{
    let a = ends::node(t, Task::A)?;
    let is_mark = table_values::same(nodes::value(ns, a), mark);
    let step = if is_mark { yes } else { no };
    Ok(Done::next(hat, t, step))
}
