// A core, event by event.
ghost use Rattle.kt_prog.specs.Accepted.{IsAccepted};

use crate::driven::{ask, ask_index, begin, main_has_run};
use crate::jobs::opened;
use kt_core::{Core, Event, Phase, Why};
use kt_prog::{Operation, Program, inputs, laws};
use std::alloc::Global;
use std::process::Abort;
use std::test::Fail;

const THREE_TASKS: &str =
    "object A of 1 output; object B of 1 output;\ntask put(int v, w P) { P[0] = v; }\ntask copy(r P, x Q) { Q[0] = P[0]; }\nmain { fork put(3, A); fork put(4, A); fork copy(A, B); }\ndata";

// A core of the program whose `main` has run its body.
fn begun<'a>(rt: &impl Abort, alloc: Global, program: &'a Program) -> Result<Core<'a>, Fail>
    requires { IsAccepted program.now }
{
    laws::few_objects();
    let wanted = inputs(program);
    assert!(rt; wanted == 0);
    let core = Core::new(alloc, program, &[])?;
    let ran = main_has_run(program, core);
    Ok(ran.expect(rt, "main runs"))
}

#[test]
fn tasks_that_clash_wait(rt: HostRuntime) -> Result<(), Fail> {
    let alloc = rt.alloc();
    let (program, _) = opened(alloc, THREE_TASKS)?;
    let mut core = begun(&rt, alloc, &program)?;
    let core = &mut core;
    let waits = Err(Why::Found(Phase::Unclaimed));
    assert!(rt; ask(&rt, core, &Event::ClaimReady(2)) == Err(Why::Clash(1)));
    assert!(rt; ask(&rt, core, &Event::ClaimInOrder(2)) == Err(Why::Earlier(1)));
    assert!(rt; ask(&rt, core, &Event::Split(1, 1)) == waits);
    assert!(rt; ask(&rt, core, &Event::Take(1, 0, 1)) == waits);
    assert!(rt; ask(&rt, core, &Event::Retire(0, 1)) == Err(Why::Found(Phase::Ended)));
    assert!(rt; ask(&rt, core, &Event::ClaimInOrder(1)) == Ok(()));
    assert!(rt; ask(&rt, core, &Event::ClaimReady(3)) == Err(Why::Clash(1)));
    assert!(rt; ask(&rt, core, &Event::ClaimReady(1)) == Err(Why::Found(Phase::Running)));
    assert!(rt; ask(&rt, core, &Event::Finish(0)) == Err(Why::Child(1)));
    Ok(())
}

#[test]
fn what_a_core_shows(rt: HostRuntime) -> Result<(), Fail> {
    let alloc = rt.alloc();
    let (program, _) = opened(alloc, THREE_TASKS)?;
    let core = begun(&rt, alloc, &program)?;
    let tasks = core.tasks();
    assert!(rt; tasks == 4);
    assert!(rt; core.phase(0) == Phase::Ended && core.phase(3) == Phase::Unclaimed);
    assert!(rt; core.call(1).task == 1 && core.call(3).task == 2);
    assert!(rt; core.open_child(0) == Some(1) && core.open_child(1).is_none());
    assert!(rt; core.fault(0).is_none());
    assert!(rt; core.rows() == [0, 0].as_slice());
    assert!(rt; core.program().end.line == 5);
    Ok(())
}

// A `main` that forked nothing finishes once its body has ended.
#[test]
fn a_task_finishes(rt: HostRuntime) -> Result<(), Fail> {
    let alloc = rt.alloc();
    let (program, _) = opened(alloc, "main {} data")?;
    let mut core = begun(&rt, alloc, &program)?;
    assert!(rt; ask(&rt, &mut core, &Event::Finish(0)) == Ok(()));
    let tasks = core.tasks();
    assert!(rt; tasks == 1);
    assert!(rt; core.phase(0) == Phase::Finished && core.open_child(0).is_none());
    Ok(())
}

const A_LOOP: &str = "loop each(i;) {} main { fork each(4;); } data";

#[test]
fn a_loop_of_four_indexes(rt: HostRuntime) -> Result<(), Fail> {
    let alloc = rt.alloc();
    let (program, _) = opened(alloc, A_LOOP)?;
    let mut core = begun(&rt, alloc, &program)?;
    let core = &mut core;
    assert!(rt; ask(&rt, core, &Event::ClaimInOrder(1)) == Ok(()));
    assert!(rt; begin(&rt, core, 1) == Ok(()));
    assert!(rt; ask(&rt, core, &Event::Split(1, 2)) == Ok(()));
    assert!(rt; ask(&rt, core, &Event::Split(1, 2)) == Err(Why::NoPiece));
    assert!(rt; ask(&rt, core, &Event::Take(1, 2, 3)) == Err(Why::NoPiece));
    assert!(rt; ask(&rt, core, &Event::Take(1, 2, 2)) == Ok(()));
    assert!(rt; ask_index(&rt, core, 1, 0, Operation::End) == Err(Why::NotTaken(0)));
    assert!(rt; ask(&rt, core, &Event::Retire(1, 1)) == Err(Why::NotEnded(0)));
    assert!(rt; ask(&rt, core, &Event::Finish(1)) == Err(Why::Left(4)));
    Ok(())
}
