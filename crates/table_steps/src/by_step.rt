// A table of sets by the step's number. The members of a set are the bits of a byte, so that a tick reads a set at once
// and takes a member out of it without a choice.
ghost use Rattle.std.specs.Prelude.{◌≡◌, get_or};

// The figure's last step has the number 82.
pub(crate) type ByStep = [u8; 83];

// The set of a step: empty past the table's end, where no step is.
pub(crate) fn set_at(table: &ByStep, step: u32) -> u8
    ensures { result ≡ get_or table.now step 0 }
{
    table.get(step as usize).copied().unwrap_or(0)
}
