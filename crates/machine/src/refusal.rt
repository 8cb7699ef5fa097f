// Why a call on a table is refused.
ghost use Rattle.std.specs.Prelude.{◌≡◌};
ghost use Rattle.machine.specs.Results.{refusal_number};

// 01's and 02's refusals, each by its number there. Those of tag lists, windows and airline lists stand with them.
#[derive(Clone, Copy, PartialEq, Eq)]
pub enum Refusal {
    Sizes = 1,
    Length = 2,
    Table = 3,
    Shape = 4,
    Task = 5,
    Operation = 6,
    Argument = 7,
    Busy = 8,
    Hint = 9,
    Idle = 10,
    NoSlot = 11,
    Out = 12,
    List = 13,
    Answers = 14,
    Panel = 15,
    Twice = 16,
    Page = 20,
    PageOut = 21,
    Snapshot = 22,
    Lanes = 25,
    Lane = 26,
}

impl Refusal {
    pub fn number(self) -> u32
        ensures { result ≡ refusal_number self }
    {
        self as u32
    }
}
