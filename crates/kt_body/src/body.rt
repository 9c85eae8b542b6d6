// A body from its first operation to its end.
ghost use Rattle.std.specs.Prelude.{◌≡◌, ◌≤◌, [], length};
ghost use Rattle.kt_prog.specs.Bodies.{call_body, job_body, main_body, statements, task_body};
ghost use Rattle.kt_prog.specs.Calls.{Whole};
ghost use Rattle.kt_prog.specs.Fits.{Fits};
ghost use Rattle.std.specs.Prelude.{Some};
ghost use Rattle.kt_body.specs.Endings.{Begins, EndsSo};
ghost use Rattle.kt_body.specs.Moves.{Can, Ran};
ghost use Rattle.kt_law.specs.declared.limits.TheConstants.{STEPS};
ghost use Rattle.kt_body.specs.Scenes.{site_in};
ghost use Rattle.kt_body.specs.Starts.{IsTask, given_body};

use crate::exec::exec_all;
use crate::measured::Measured;
use crate::ops::{Early, Ended, Ops, Went};
use crate::scene::Scene;
use crate::start::name_params;
use crate::walk::Walk;
use crate::zero::zero_each;
use kt_prog::{Call, Program, Stmt, Task};

fn run_statements<'a, O: Ops>(
    scene: &Scene,
    walk: &mut Walk<'a>,
    stmts: &'a [Stmt],
    ops: &mut O,
) -> Result<(), Early>
    requires can { Can O.at O.goes O.halted scene.now.program.now ops.old
        (statements (λ w. w) (site_in scene.now) walk.old.locals stmts.now) }
    requires steps { walk.old.steps ≡ STEPS }
    ensures { Ran O.at O.goes O.halted ops.old
        (statements (λ w. w) (site_in scene.now) walk.old.locals stmts.now) ops.new result }
{
    exec_all(scene, walk, stmts, ops)
}

fn run_main<O: Ops>(program: &Program, ops: &mut O) -> Result<(), Early>
    requires { Can O.at O.goes O.halted program.now ops.old
        (main_body (λ w. w) program.now program.now.mains) }
    ensures { Ran O.at O.goes O.halted ops.old (main_body (λ w. w) program.now program.now.mains)
        ops.new result }
{
    let mains = program.mains.as_slice();
    if mains.len() == 0 {
        return Ok(());
    }
    let measured = Measured::new(program);
    let scene = Scene {
        program: &measured,
        in_main: true,
        depth: 0,
    };
    let mut walk = Walk::new();
    run_statements(&scene, &mut walk, mains[0].body.as_slice(), ops)
}

/// The statements of a task or an index, where the names begin with these and go on with the parameters.
pub fn run_given<'a, O: Ops>(
    program: &Program,
    call: &Call,
    walk: &mut Walk<'a>,
    task: &'a Task,
    ops: &mut O,
) -> Result<(), Early>
    requires can { Can O.at O.goes O.halted program.now ops.old
        (given_body program.now call.now walk.old.locals task.now) }
    requires fits { Fits program.now call.now }
    requires few { length walk.old.locals ≤ 1 }
    requires steps { walk.old.steps ≡ STEPS }
    ensures { Ran O.at O.goes O.halted ops.old
        (given_body program.now call.now walk.old.locals task.now) ops.new result }
{
    let (ints, accesses) = (call.ints.as_slice(), call.accesses.as_slice());
    let measured = Measured::of(program, accesses);
    let scene = Scene {
        program: &measured,
        in_main: false,
        depth: call.depth,
    };
    name_params(walk, task.params.as_slice(), ints, accesses);
    run_statements(&scene, walk, task.body.as_slice(), ops)
}

fn run_task<O: Ops>(program: &Program, call: &Call, task: &Task, ops: &mut O) -> Result<(), Early>
    requires can { Can O.at O.goes O.halted program.now ops.old
        (task_body (λ w. w) program.now call.now (Some task.now)) }
    requires fits { Fits program.now call.now }
    ensures { Ran O.at O.goes O.halted ops.old
        (task_body (λ w. w) program.now call.now (Some task.now)) ops.new result }
{
    let mut walk = Walk::new();
    run_given(program, call, &mut walk, task, ops)
}

fn run_call<O: Ops>(program: &Program, call: &Call, ops: &mut O) -> Result<(), Early>
    requires can { Can O.at O.goes O.halted program.now ops.old
        (call_body (λ w. w) program.now call.now call.now.task) }
    requires fits { Fits program.now call.now }
    requires task { IsTask program.now call.now }
    ensures { Ran O.at O.goes O.halted ops.old
        (call_body (λ w. w) program.now call.now call.now.task) ops.new result }
{
    if call.task == 0 {
        return run_main(program, ops);
    }
    let tasks = program.tasks.as_slice();
    let at = (call.task - 1) as usize;
    if at < tasks.len() {
        run_task(program, call, &tasks[at], ops)
    } else {
        Ok(())
    }
}

fn run_whole<O: Ops>(program: &Program, call: &Call, ops: &mut O) -> Result<(), Early>
    requires can { Can O.at O.goes O.halted program.now ops.old
        (job_body (λ w. w) program.now (Whole call.now)) }
    requires fits { Fits program.now call.now }
    requires task { IsTask program.now call.now }
    ensures { Ran O.at O.goes O.halted ops.old (job_body (λ w. w) program.now (Whole call.now))
        ops.new result }
{
    match zero_each(program, call.accesses.as_slice(), ops) {
        Went::Went => run_call(program, call, ops),
        Went::Halt => Err(Early::Halted),
    }
}

/// The operations of the body of a task or of `main`, its zeroing first, in order.
pub fn run_body<O: Ops>(program: &Program, call: &Call, ops: &mut O) -> Ended
    requires begins { Begins O.at O.goes O.halted program.now (Whole call.now) ops.old }
    requires task { IsTask program.now call.now }
    ensures { EndsSo O.at O.goes O.halted program.now (Whole call.now) ops.old ops.new result }
{
    match run_whole(program, call, ops) {
        Ok(()) => Ended::Done,
        Err(Early::Fault(law, line)) => Ended::Fault(law, line),
        Err(Early::Halted) => Ended::Halted,
    }
}
