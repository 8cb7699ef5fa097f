// The operations, by their numbers.
ghost use Rattle.std.specs.Prelude.{◌≡◌};
ghost use Rattle.machine.specs.Operations.{operation_number};
ghost use Rattle.machine.specs.Asked.{operation_meant, OperationOf};

use crate::refusal::Refusal;

#[derive(Clone, Copy, PartialEq, Eq)]
pub enum Operation {
    Push = 1,
    Pop = 2,
    Add = 3,
    Remove = 4,
}

// 01: check 6.
impl TryFrom<u32> for Operation {
    type Error = Refusal;

    ghost try_from_gives = { OperationOf };

    fn try_from(number: u32) -> Result<Self, Refusal> {
        match number {
            1 => Ok(Operation::Push),
            2 => Ok(Operation::Pop),
            3 => Ok(Operation::Add),
            4 => Ok(Operation::Remove),
            _ => Err(Refusal::Operation),
        }
    }
}

impl Operation {
    pub fn number(self) -> u32
        ensures { result ≡ operation_number (operation_meant self) }
    {
        self as u32
    }
}
