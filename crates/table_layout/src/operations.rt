// The operations by their numbers: whether there is one, what each takes as its argument, and its goal.
// Kept: an operation is its number, as it stands in the words of the table and in the calls (the C interface); the test
// of a table meets numbers of no operation too.
ghost use Rattle.std.specs.Prelude.{◌≡◌, true};
ghost use Rattle.machine.specs.Values.{number};
ghost use Rattle.machine.specs.Operations.{operation_of, argument_ok, goal_of};
ghost use Rattle.machine.specs.Calls.{is_idle};

use machine::Stored;
use table_record::Task;

// Whether a task with that number is in no call.
pub fn is_idle(operation: u32) -> bool
    ensures { result ≡ is_idle (operation_of operation) }
{
    operation == Task::IDLE
}

// 01: argument: push a bag number, pop 0, add 0 to 64, remove 0 to 1,023.
pub fn argument_ok(operation: u32, argument: Stored) -> bool
    ensures { result ≡ argument_ok (operation_of operation) argument }
{
    match operation {
        Task::PUSH => table_values::bag_ok(argument),
        Task::IDLE | Task::POP => table_values::number(argument) == 0,
        Task::ADD => table_values::number(argument) <= 64,
        _ => table_values::number(argument) <= 1_023,
    }
}

// 01: goal: the argument for add and remove, growth for push, 0 for pop, whose argument is 0.
pub fn goal_of(operation: u32, growth: u32, argument: Stored) -> u32
    requires { argument_ok (operation_of operation) argument ≡ true }
    ensures { result ≡ goal_of (operation_of operation) growth (number argument) }
{
    if operation == Task::PUSH {
        return growth;
    }
    argument.word
}
