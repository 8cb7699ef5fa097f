// What a begin is asked for: operation, side, argument and lane.
ghost use Rattle.std.specs.Prelude.{◌≡◌, true, IfOk};
ghost use Rattle.machine.specs.Sides.{side_of};
ghost use Rattle.machine.specs.Values.{number};
ghost use Rattle.machine.specs.Operations.{operation_of, argument_ok};
ghost use Rattle.machine.specs.Steps.{first_step, step_number};
ghost use Rattle.machine.specs.Calls.{begun_task};
ghost use Rattle.machine.specs.Results.{refusal_in};
ghost use Rattle.table_record.specs.Coded.{coded_task};
ghost use Rattle.machine.specs.Asked.{operation_meant, side_meant};
ghost use Rattle.call_begin.specs.Tests.{asked_refusal};

use machine::Stored;
use machine::operation::Operation;
use machine::refusal::Refusal;
use machine::side::Side;
use table_layout::operations::argument_ok;
use table_record::Task;

// The step at which an operation begins.
fn first_step(operation: Operation) -> u32
    ensures { result ≡ step_number (first_step (operation_meant operation)) }
{
    match operation {
        Operation::Push => Task::FIRST_OF_PUSH,
        Operation::Pop => Task::FIRST_OF_POP,
        Operation::Add => Task::FIRST_OF_ADD,
        Operation::Remove => Task::FIRST_OF_REMOVE,
    }
}

// A call that passes checks 6 and 7, and its lane.
#[derive(Clone, Copy)]
pub struct Call {
    pub lane: u32,
    pub operation: Operation,
    pub side: Side,
    pub argument: Stored,
    ghost is_argument: { argument_ok (operation_meant operation) argument ≡ true },
}

impl Call {
    // 01: checks 6 and 7.
    #[inline(never)]
    pub fn new(lane: u32, operation: u32, side: u32, argument: Stored) -> Result<Self, Refusal>
        ensures refusal { refusal_in result ≡ asked_refusal operation side argument }
        ensures asked { IfOk result (λ c. (c.lane ≡ lane)
            × (operation_meant c.operation ≡ operation_of operation)
            × (side_meant c.side ≡ side_of side)
            × (c.argument ≡ argument)) }
    {
        let asked = Operation::try_from(operation)?;
        let side = Side::try_from(side)?;
        if !argument_ok(operation, argument) {
            return Err(Refusal::Argument);
        }
        Ok(Call {
            lane,
            operation: asked,
            side,
            argument,
        })
    }

    // 01: a fresh record with operation, side, argument and first step; 02: and its lane.
    pub fn begun(self) -> Task
        ensures { result
            ≡ coded_task
            (begun_task self.lane (operation_meant self.operation) (side_meant self.side) (number self.argument)) }
    {
        Task {
            operation: self.operation.number(),
            step: first_step(self.operation),
            side: self.side.number(),
            argument: self.argument,
            lane: self.lane,
            ..Task::fresh()
        }
    }
}
