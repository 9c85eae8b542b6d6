// Which form of body a call has.
ghost use Rattle.std.specs.Prelude.{◌≡◌, is_some};
ghost use Rattle.kt_prog.specs.Bodies.{index_in, task_at};
ghost use Rattle.kt_prog.specs.Forms.{form_at};
ghost use Rattle.kt_prog.specs.Operations.{is_loop_at};

use crate::calls::Call;
use crate::programs::{Program, Task};
use kt_law::DEFINITIONS;

/// The forms of a body: the statements of a task or of `main`, the zeroing of a loop with the indexes behind it, or a kernel.
#[derive(Clone, Copy, Debug, PartialEq, Eq)]
pub enum Form {
    Task,
    Loop,
    Kernel,
}

#[tactic(auto, using(crate::proofs::Forms::task_there, crate::proofs::Forms::task_not_there))]
fn has_index(tasks: &[Task], at: usize) -> bool
    ensures { result ≡ is_some (index_in (task_at tasks.now at)) }
{
    if at < tasks.len() {
        tasks[at].index.is_some()
    } else {
        false
    }
}

fn is_loop(program: &Program, number: u32) -> bool
    ensures { result ≡ is_loop_at program.now number }
{
    if number == 0 || number > DEFINITIONS {
        return false;
    }
    has_index(program.tasks.as_slice(), (number - 1) as usize)
}

impl Call {
    /// Which form of body the call has, for whoever takes a call to run it.
    pub fn form(&self, program: &Program) -> Form
        ensures { result ≡ form_at program.now self.now.task }
    {
        if self.task > DEFINITIONS {
            Form::Kernel
        } else if is_loop(program, self.task) {
            Form::Loop
        } else {
            Form::Task
        }
    }
}
