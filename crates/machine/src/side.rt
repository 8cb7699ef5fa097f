// The two sides, by their numbers.
ghost use Rattle.std.specs.Prelude.{◌≡◌};
ghost use Rattle.machine.specs.Sides.{side_number};
ghost use Rattle.machine.specs.Asked.{side_meant, SideOf};

use crate::refusal::Refusal;

#[derive(Clone, Copy, PartialEq, Eq)]
pub enum Side {
    Left = 0,
    Right = 1,
}

// 01: check 6.
impl TryFrom<u32> for Side {
    type Error = Refusal;

    ghost try_from_gives = { SideOf };

    fn try_from(number: u32) -> Result<Self, Refusal> {
        match number {
            0 => Ok(Side::Left),
            1 => Ok(Side::Right),
            _ => Err(Refusal::Operation),
        }
    }
}

impl Side {
    pub fn number(self) -> u32
        ensures { result ≡ side_number (side_meant self) }
    {
        self as u32
    }
}
