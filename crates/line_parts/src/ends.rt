// How a line ends (the task goes to a step, answers, or is refused), and what lines share on the way there.
ghost use Rattle.std.specs.Prelude.{◌≡◌, ◌<◌, IfOk, IfErr};
ghost use Rattle.machine.specs.Steps.{step_number};
ghost use Rattle.machine.specs.Lines.{back};
ghost use Rattle.table_record.specs.Coded.{task_meant, with_register};
ghost use Rattle.line_parts.specs.Lent.{NodeIn, NoNodeIn, next_done, answer_done};

use machine::answer::Answer;
use machine::refusal::Refusal;
use table_record::Task;

// How a line that is made ends: the hat afterwards, the lane's on that side, the task's record and the answer.
#[derive(Clone, Copy)]
pub struct Done {
    pub hat: u32,
    pub task: Task,
    pub answer: Answer,
}

impl Done {
    // The task goes to a step.
    pub fn next(hat: u32, t: Task, step: u32) -> Self
        ensures { result ≡ next_done hat t step }
    {
        Self {
            hat,
            task: t.at(step),
            answer: Answer::Going,
        }
    }

    // 01: an answering tick also makes the record fresh.
    pub fn answers(hat: u32, answer: Answer) -> Self
        ensures { result ≡ answer_done hat answer }
    {
        Self {
            hat,
            task: Task::fresh(),
            answer,
        }
    }

    // The lines 2, 15, 39 and 67: A = hat, and the next step.
    pub fn take_hat(hat: u32, t: Task, step: u32) -> Self
        ensures { result ≡ next_done hat (with_register t 0 hat) step }
    {
        Self::next(hat, t.with(Task::A, hat), step)
    }
}

// The node in a register, through which a line goes; none is refused.
pub fn node(t: Task, register: usize) -> Result<u32, Refusal>
    requires { register < 4 }
    ensures node { IfOk result (λ x. NodeIn t register x) }
    ensures none { IfErr result (λ r. NoNodeIn t register r) }
{
    let x = t.registers[register];
    if x == Task::NONE {
        return Err(Refusal::NoSlot);
    }
    Ok(x)
}

// 01: back is 2 for a push whose D is none, else 15.
pub fn back(t: Task) -> u32
    ensures { result ≡ step_number (back (task_meant t)) }
{
    if t.operation == Task::PUSH && t.registers[Task::D] == Task::NONE {
        2
    } else {
        15
    }
}
