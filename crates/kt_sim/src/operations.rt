// The operations of a body, each an event of the core.
ghost use Rattle.std.specs.Prelude.{◌≡◌, None};
ghost use Rattle.kt_body.specs.Doing.{CanDo, Followed};
ghost use Rattle.kt_body.specs.Endings.{IsCalled};
ghost use Rattle.kt_sim.specs.Simulated.{At, IsFound, IsOut, Moves, event_of};
ghost use Rattle.kt_sim.specs.declared.operations.Stop.TheVariants.{NoMemory};

use crate::doing::enter;
use kt_body::{Got, Ops, Went};
use kt_core::{Core, Event};
use kt_law::{NoMemory, Op, TASKS};
use kt_prog::{Call, Operation};
use std::alloc::AllocFailed;

/// Why a run goes no further.
#[derive(Clone, Copy, Debug, PartialEq, Eq)]
pub enum Stop {
    /// There are more tasks or indexes than the limits allow.
    Over,
    NoMemory,
}

impl From<NoMemory> for Stop {
    ghost from_gives = { λ _ stop. stop ≡ NoMemory };

    fn from(_: NoMemory) -> Self {
        Stop::NoMemory
    }
}

impl<T: Drop> From<AllocFailed<T>> for Stop {
    ghost from_gives = { λ _ stop. stop ≡ NoMemory };

    fn from(_: AllocFailed<T>) -> Self {
        Stop::NoMemory
    }
}

/// A run with the count of the indexes of its loops, and the task, or the index of it, whose body goes. Once there is a task too many,
/// the rest of the body is passed over.
#[derive(Drop)]
pub struct Simulation<'a> {
    pub core: Core<'a>,
    pub indexes: u32,
    pub task: u32,
    pub index: Option<u32>,
    pub stop: Option<Stop>,
}

impl<'a> Simulation<'a> {
    /// The event that this operation of the body is.
    pub fn event(&self, operation: Operation) -> Event
        ensures { result ≡ event_of self.now.index self.now.task operation }
    {
        match self.index {
            None => Event::Body(self.task, operation),
            Some(index) => Event::Index(self.task, index, operation),
        }
    }

    fn operate(&mut self, operation: Operation) -> Went
        requires can { CanDo At IsOut self.old (λ a. operation) }
        requires called { IsCalled operation }
        requires found { IsFound self.old operation }
        ensures { Followed At Moves IsOut self.old operation self.new result }
    {
        match self.stop {
            Some(Stop::Over) => Went::Went,
            Some(Stop::NoMemory) => Went::Halt,
            None => self.step(operation),
        }
    }

    fn step(&mut self, operation: Operation) -> Went
        requires can { CanDo At IsOut self.old (λ a. operation) }
        requires called { IsCalled operation }
        requires found { IsFound self.old operation }
        requires goes { self.old.stop ≡ None }
        ensures { Followed At Moves IsOut self.old operation self.new result }
    {
        let event = self.event(operation);
        match enter(&mut self.core, &event) {
            Ok(()) => {
                if self.core.tasks() > TASKS {
                    self.stop = Some(Stop::Over);
                }
                Went::Went
            }
            Err(NoMemory) => {
                self.stop = Some(Stop::NoMemory);
                Went::Halt
            }
        }
    }
}

impl<'a> Ops for Simulation<'a> {
    ghost use Rattle.kt_sim.specs.Simulated.{At, IsOut, Moves};

    ghost at = { At };

    ghost goes = { Moves };

    ghost halted = { IsOut };

    fn load(&mut self, object: u32, element: u32) -> Got {
        let value = self.core.value(object, element);
        match self.operate(Operation::Load(object, element, value)) {
            Went::Went => Got::Value(value),
            Went::Halt => Got::Halt,
        }
    }

    fn store(&mut self, object: u32, element: u32, value: u64) -> Went {
        self.operate(Operation::Store(object, element, value))
    }

    fn fold(&mut self, object: u32, element: u32, op: Op, value: u64) -> Went {
        self.operate(Operation::Fold(object, element, op, value))
    }

    fn fork(&mut self, child: &Call) -> Went {
        self.operate(Operation::Fork(child.copied()))
    }
}
