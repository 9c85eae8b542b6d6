// The body of one index of a loop.
ghost use Rattle.std.specs.Prelude.{◌-◌, Some};
ghost use Rattle.kt_prog.specs.Bodies.{index_body, task_at};
ghost use Rattle.kt_prog.specs.Calls.{Index};
ghost use Rattle.kt_prog.specs.Fits.{Fits};
ghost use Rattle.kt_body.specs.Endings.{Begins, EndsSo};
ghost use Rattle.kt_body.specs.Moves.{Can, Ran};

use crate::body::run_given;
use crate::ops::{Early, Ended, Ops};
use crate::start::name_index;
use crate::walk::Walk;
use kt_prog::{Call, Program, Task};

fn run_index_of<O: Ops>(
    program: &Program,
    call: &Call,
    index: u32,
    task: &Task,
    ops: &mut O,
) -> Result<(), Early>
    requires can { Can O.at O.goes O.halted program.now ops.old
        (index_body (λ w. w) program.now call.now index (Some task.now)) }
    requires fits { Fits program.now call.now }
    ensures { Ran O.at O.goes O.halted ops.old
        (index_body (λ w. w) program.now call.now index (Some task.now)) ops.new result }
{
    let mut walk = Walk::new();
    name_index(&mut walk, &task.index, index);
    run_given(program, call, &mut walk, task, ops)
}

fn run_at<O: Ops>(program: &Program, call: &Call, index: u32, ops: &mut O) -> Result<(), Early>
    requires can { Can O.at O.goes O.halted program.now ops.old
        (index_body (λ w. w) program.now call.now index
        (task_at program.now.tasks (call.now.task - 1))) }
    requires fits { Fits program.now call.now }
    ensures { Ran O.at O.goes O.halted ops.old
        (index_body (λ w. w) program.now call.now index
        (task_at program.now.tasks (call.now.task - 1))) ops.new result }
{
    let tasks = program.tasks.as_slice();
    let at = call.task.saturating_sub(1) as usize;
    if at < tasks.len() {
        run_index_of(program, call, index, &tasks[at], ops)
    } else {
        Ok(())
    }
}

/// The operations of one index of a loop's call, in order. The zeroing isn't among them: it is done once, before the first index.
pub fn run_index<O: Ops>(program: &Program, call: &Call, index: u32, ops: &mut O) -> Ended
    requires { Begins O.at O.goes O.halted program.now (Index call.now index) ops.old }
    ensures { EndsSo O.at O.goes O.halted program.now (Index call.now index)
        ops.old ops.new result }
{
    match run_at(program, call, index, ops) {
        Ok(()) => Ended::Done,
        Err(Early::Fault(law, line)) => Ended::Fault(law, line),
        Err(Early::Halted) => Ended::Halted,
    }
}
