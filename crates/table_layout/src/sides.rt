// The two sides by their numbers.
// Kept: a side is its number, 0 or 1, as the words of the table and the calls have it (the C interface), so that a link
// or a hat is read at a place plus the side, without a choice.
ghost use Rattle.std.specs.Prelude.{◌≡◌, ◌<◌};
ghost use Rattle.machine.specs.Sides.{side_number, side_of, opposite};

// The number of the opposite side.
pub fn opposite(side: u32) -> u32
    requires { side < 2 }
    ensures { result ≡ side_number (opposite (side_of side)) }
{
    1 - side
}
