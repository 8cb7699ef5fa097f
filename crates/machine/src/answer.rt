// What the ticks answer that are made, and what a run comes to.
ghost use Rattle.std.specs.Prelude.{◌≡◌};
ghost use Rattle.machine.specs.Answers.{kind_of, payload_of, is_going};
ghost use Rattle.machine.specs.Results.{said};

use crate::refusal::Refusal;

// What a tick answers that is made.
#[derive(Clone, Copy, PartialEq, Eq)]
pub enum Answer {
    Going,
    Pushed,
    Bag(u64),
    Empty,
    Full,
    Yes,
    No,
}

impl Answer {
    // 01: 0 going, 1 pushed, 2 bag, 3 empty, 4 full, 5 yes, 6 no.
    pub fn kind(self) -> u32
        ensures { result ≡ kind_of (said self) }
    {
        match self {
            Answer::Going => 0,
            Answer::Pushed => 1,
            Answer::Bag(_) => 2,
            Answer::Empty => 3,
            Answer::Full => 4,
            Answer::Yes => 5,
            Answer::No => 6,
        }
    }

    // 01: then the bag or 0.
    pub fn payload(self) -> u64
        ensures { result ≡ payload_of (said self) }
    {
        match self {
            Answer::Bag(tag) => tag,
            _ => 0,
        }
    }

    // Whether the task goes on.
    pub fn is_going(self) -> bool
        ensures { result ≡ is_going (said self) }
    {
        matches!(self, Answer::Going)
    }
}

// What a run answers: how many ticks it made, and what stopped it, if anything.
#[derive(Clone, Copy, PartialEq, Eq)]
pub struct Ran {
    pub made: u32,
    pub refusal: Option<Refusal>,
}
