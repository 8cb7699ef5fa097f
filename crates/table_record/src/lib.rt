// The task record by value: its words read and written, and the record with one thing changed. Only this file and the
// definitions of tasks say where in a record a word stands.
#![tactic(auto)]

ghost use Rattle.std.specs.Prelude.{◌&&◌, ◌≡◌, ◌<◌, eqb, length};
ghost use Rattle.machine.specs.Tasks.{fresh, no_node, record_length, words_of};
ghost use Rattle.machine.specs.Shape.{same_words};
ghost use Rattle.table_record.specs.Coded.{
  fresh_task,
  record_of,
  struct_of,
  at_step,
  with_register,
  with_value_read,
  with_count,
  SameCall,
};

use machine::Stored;

#[repr(C)]
#[derive(Clone, Copy)]
pub struct Task {
    pub operation: u32,
    pub step: u32,
    pub side: u32,
    pub argument: Stored,
    pub counted: u32,
    pub value: Stored,
    pub registers: [u32; 4],
    pub lane: u32,
}

// Whether two words are none: compared as one number of 64 bits with that of two nones, 65,535 times 2^32 + 1, so that
// the compiler makes one compare of them.
fn are_none(a: u32, b: u32) -> bool
    ensures { result ≡ eqb a no_node && eqb b no_node }
{
    a as u64 + 4_294_967_296 * (b as u64) == 281_470_681_808_895
}

impl Task {
    // Kept: none, operations, steps and registers are numbers, as in the table's words (the C interface), which a tick
    // reads and writes as they stand; they are tested once for a whole table (`table_shape`).
    // 01: 65,535 for none.
    pub const NONE: u32 = 65_535;
    // The operations.
    pub const IDLE: u32 = 0;

    pub const PUSH: u32 = 1;

    pub const POP: u32 = 2;

    pub const ADD: u32 = 3;

    pub const REMOVE: u32 = 4;
    // Their first steps.
    pub const FIRST_OF_PUSH: u32 = 2;

    pub const FIRST_OF_POP: u32 = 39;

    pub const FIRST_OF_ADD: u32 = 28;

    pub const FIRST_OF_REMOVE: u32 = 54;
    // The registers' places.
    pub const A: usize = 0;

    pub const B: usize = 1;

    pub const C: usize = 2;

    pub const D: usize = 3;

    // 02: a fresh record is eight zeros, four nones and a zero.
    pub fn fresh() -> Self
        ensures { result ≡ fresh_task }
    {
        Self {
            operation: Task::IDLE,
            step: 0,
            side: 0,
            argument: Stored { word: 0, digit: 0 },
            counted: 0,
            value: Stored { word: 0, digit: 0 },
            registers: [Task::NONE, Task::NONE, Task::NONE, Task::NONE],
            lane: 0,
        }
    }

    // The record of its words. Kept: no `From`, whose contract could ask for no length of the slice.
    pub fn read(words: &[u32]) -> Self
        requires { length words.now ≡ record_length }
        ensures { result ≡ struct_of words.now }
    {
        Self {
            operation: words[0],
            step: words[1],
            side: words[2],
            argument: Stored {
                word: words[3],
                digit: words[4],
            },
            counted: words[5],
            value: Stored {
                word: words[6],
                digit: words[7],
            },
            registers: [words[8], words[9], words[10], words[11]],
            lane: words[12],
        }
    }

    // Its words written.
    pub fn write(self, words: &mut [u32])
        requires { length words.old ≡ record_length }
        ensures { words.new ≡ record_of self }
    {
        let argument = self.argument;
        words[0] = self.operation;
        words[2] = self.side;
        words[3] = argument.word;
        words[4] = argument.digit;
        words[12] = self.lane;
        self.write_further(words);
    }

    // The words of a record whose call stands there already: those that the lines change as the call goes on.
    pub fn write_further(self, words: &mut [u32])
        requires words_len { length words.old ≡ record_length }
        requires same_call { SameCall (struct_of words.old) self }
        ensures { words.new ≡ record_of self }
    {
        let value = self.value;
        words[1] = self.step;
        words[5] = self.counted;
        words[6] = value.word;
        words[7] = value.digit;
        words[8] = self.registers[0];
        words[9] = self.registers[1];
        words[10] = self.registers[2];
        words[11] = self.registers[3];
    }

    // 01: an idle record is fresh. Kept: a derived `==` with a fresh record chooses at each word, and took a tenth longer
    // over sixteen idle records, in Rust.
    pub fn is_fresh(self) -> bool
        ensures { result ≡ same_words (record_of self) (words_of fresh) }
    {
        let argument = self.argument;
        let value = self.value;
        (self.operation == Task::IDLE)
            & (self.step == 0)
            & (self.side == 0)
            & (argument.word == 0)
            & (argument.digit == 0)
            & (self.counted == 0)
            & (value.word == 0)
            & (value.digit == 0)
            & are_none(self.registers[Task::A], self.registers[Task::B])
            & are_none(self.registers[Task::C], self.registers[Task::D])
            & (self.lane == 0)
    }

    // The same record, written out word by word: the compiler then keeps a record that a line changes in the processor,
    // and copies none of it through memory. Kept: with a plain copy of the struct a tick of a pop took a fifth longer.
    fn copied(self) -> Self
        ensures { result ≡ self }
    {
        let argument = self.argument;
        let value = self.value;
        let a = self.registers[Task::A];
        let b = self.registers[Task::B];
        let c = self.registers[Task::C];
        let d = self.registers[Task::D];
        Self {
            operation: self.operation,
            step: self.step,
            side: self.side,
            argument,
            counted: self.counted,
            value,
            registers: [a, b, c, d],
            lane: self.lane,
        }
    }

    // The record at another step.
    pub fn at(self, step: u32) -> Self
        ensures { result ≡ at_step self step }
    {
        let mut t = self.copied();
        t.step = step;
        t
    }

    // The record with a register set.
    pub fn with(self, register: usize, x: u32) -> Self
        requires { register < 4 }
        ensures { result ≡ with_register self register x }
    {
        let mut t = self.copied();
        t.registers[register] = x;
        t
    }

    // The record with another value read.
    pub fn reading(self, v: Stored) -> Self
        ensures { result ≡ with_value_read self v }
    {
        let mut t = self.copied();
        t.value = v;
        t
    }

    // The record with another count.
    pub fn counting(self, n: u32) -> Self
        ensures { result ≡ with_count self n }
    {
        let mut t = self.copied();
        t.counted = n;
        t
    }
}
