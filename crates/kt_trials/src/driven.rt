// Bodies that run on a core.
ghost use Rattle.std.specs.Prelude.{◌≡◌, ◌<◌, [], length, true};
ghost use Rattle.kt_body.specs.Doing.{Followed};
ghost use Rattle.kt_body.specs.Endings.{IsCalled};
ghost use Rattle.kt_prog.specs.Accepted.{IsAccepted};
ghost use Rattle.kt_prog.specs.declared.runs.Operation.{Operation};
ghost use Rattle.kt_trials.specs.Driven.{CanGo, IsPlain, StandsAt};
ghost use Rattle.kt_tables.specs.TableEvents.{CanAsk, task_of};
ghost use Rattle.kt_tables.specs.Tables.{opening_state};
ghost use Rattle.kt_tables.specs.declared.events.Event.TheVariants as event_is;

use kt_body::{Ended, Got, Ops, Went, run_body};
use kt_core::{Core, Event, Why};
use kt_law::Op;
use kt_prog::laws::{loop_is_zeroing, next_is_on_element};
use kt_prog::{Call, Form, Operation, Program};
use std::process::Abort;

/// A core, and the task whose body runs on it.
#[derive(Drop)]
struct Doing<'a> {
    core: Core<'a>,
    task: u32,
    over: bool,
}

impl<'a> Doing<'a> {
    fn go(&mut self, operation: Operation) -> Went
        requires can { CanGo self.old.core self.old.task operation }
        requires called { IsCalled operation }
        requires live { self.old.over ≡ true → ⊥ }
        ensures { Followed (λ d. StandsAt d.core d.task) (λ d done e. Unit {0}) (λ d. d.over ≡ true)
            self.old operation self.new result }
    {
        match self.core.step(&Event::Body(self.task, operation)) {
            Ok(()) => Went::Went,
            Err(_) => {
                self.over = true;
                Went::Halt
            }
        }
    }
}

impl<'a> Ops for Doing<'a> {
    ghost use Rattle.std.specs.Prelude.{◌≡◌, true};
    ghost use Rattle.kt_trials.specs.Driven.{StandsAt};

    ghost at = { λ d. StandsAt d.core d.task };

    ghost goes = { λ d operation e. Unit {0} };

    ghost halted = { λ d. d.over ≡ true };

    fn load(&mut self, object: u32, element: u32) -> Got {
        next_is_on_element();
        let value = self.core.value(object, element);
        match self.go(Operation::Load(object, element, value)) {
            Went::Went => Got::Value(value),
            Went::Halt => Got::Halt,
        }
    }

    fn store(&mut self, object: u32, element: u32, value: u64) -> Went {
        self.go(Operation::Store(object, element, value))
    }

    fn fold(&mut self, object: u32, element: u32, op: Op, value: u64) -> Went {
        self.go(Operation::Fold(object, element, op, value))
    }

    fn fork(&mut self, child: &Call) -> Went {
        if self.core.tasks() < u32::MAX {
            self.go(Operation::Fork(child.copied()))
        } else {
            self.over = true;
            Went::Halt
        }
    }
}

/// A core whose `main` has run its body.
pub fn main_has_run<'a>(program: &'a Program, core: Core<'a>) -> Option<Core<'a>>
    requires accepted { IsAccepted program.now }
    requires opening { core ≡ opening_state program.now [] }
{
    let mut core = core;
    match core.step(&Event::ClaimInOrder(0)) {
        Ok(()) => {}
        Err(_) => return None,
    }
    let mut doing = Doing {
        core,
        task: 0,
        over: false,
    };
    match run_body(program, &Call::of_main(), &mut doing) {
        Ended::Done => {}
        Ended::Fault(_, _) => return None,
        Ended::Halted => return None,
    }
    let task = doing.task;
    match doing.core.step(&Event::Body(task, Operation::End)) {
        Ok(()) => Some(doing.core),
        Err(_) => None,
    }
}

fn task_of(event: &Event) -> u32
    ensures { result ≡ task_of event.now }
{
    match event {
        Event::ClaimInOrder(task) => *task,
        Event::ClaimReady(task) => *task,
        Event::Body(task, _) => *task,
        Event::Begin(task) => *task,
        Event::Split(task, _) => *task,
        Event::Take(task, _, _) => *task,
        Event::Index(task, _, _) => *task,
        Event::Retire(task, _) => *task,
        Event::Finish(task) => *task,
    }
}

/// The answer to an event of a task that there is.
pub fn ask(rt: &impl Abort, core: &mut Core, event: &Event) -> Result<(), Why>
    requires { IsPlain event.now }
{
    let task = task_of(event);
    let tasks = core.tasks();
    assert!(rt; task < tasks);
    core.step(event)
}

fn has_no_access(call: &Call) -> bool
    ensures { result ≡ true → call.now.accesses ≡ [] }
{
    match call.accesses.as_slice() {
        [] => true,
        _ => false,
    }
}

/// Whether the task is a loop that has nothing to zero, so that it may begin once it is claimed.
fn is_bare_loop(core: &Core, task: u32) -> bool
    requires { task < length core.now.table.tasks }
    ensures { result ≡ true → CanAsk core.now.program (event_is.Begin task) core.now.table }
{
    loop_is_zeroing();
    let call = core.call(task);
    match call.form(core.program()) {
        Form::Loop => has_no_access(call),
        _ => false,
    }
}

/// Whether the index is not taken, or has ended.
#[tactic(auto, using(crate::proofs::Driving::can_ask_idle))]
fn is_idle(core: &Core, task: u32, index: u32) -> bool
    requires { task < length core.now.table.tasks }
    ensures { result ≡ true → (operation : Operation)
        → CanAsk core.now.program (event_is.Index task index operation) core.now.table }
{
    !core.is_under_way(task, index)
}

/// The answer to the beginning of a loop that has nothing to zero.
pub fn begin(rt: &impl Abort, core: &mut Core, task: u32) -> Result<(), Why> {
    let tasks = core.tasks();
    assert!(rt; task < tasks);
    let bare = is_bare_loop(core, task);
    assert!(rt; bare);
    core.step(&Event::Begin(task))
}

/// The answer to an operation of an index that is not under way.
pub fn ask_index(
    rt: &impl Abort,
    core: &mut Core,
    task: u32,
    index: u32,
    operation: Operation,
) -> Result<(), Why> {
    let tasks = core.tasks();
    assert!(rt; task < tasks);
    let idle = is_idle(core, task, index);
    assert!(rt; idle);
    core.step(&Event::Index(task, index, operation))
}
