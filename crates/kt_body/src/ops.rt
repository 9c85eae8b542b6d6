// What a body does its operations on.
ghost use Rattle.std.specs.Prelude.{ℕ, List};
ghost use Rattle.kt_prog.specs.Calls.{Job};
ghost use Rattle.kt_prog.specs.declared.programs.Program.{Program};
ghost use Rattle.kt_prog.specs.declared.runs.Operation.{Operation};
ghost use Rattle.kt_prog.specs.declared.runs.Operation.TheVariants.{Load, Store, Fold, Fork};
ghost use Rattle.kt_body.specs.Doing.{CanDo, Found, Followed};

use kt_law::{F, Op};
use kt_prog::Call;

/// What a load found. Halt where the object does no more.
#[derive(Clone, Copy, Debug, PartialEq, Eq)]
pub enum Got {
    Value(u64),
    Halt,
}

/// Whether an operation was done. Halt where the object does no more.
#[derive(Clone, Copy, Debug, PartialEq, Eq)]
pub enum Went {
    Went,
    Halt,
}

/// How the run of a body ended.
#[derive(Clone, Copy, Debug, PartialEq, Eq)]
pub enum Ended {
    Done,
    /// A fault with the line of the statement that met it.
    Fault(F, u32),
    /// The object answered Halt.
    Halted,
}

/// Why a part of a body stopped before its end.
#[derive(Clone, Copy, Debug, PartialEq, Eq)]
pub enum Early {
    Fault(F, u32),
    Halted,
}

/// What does the operations of bodies, one after another. It is told each in turn, and keeps of them what it wants.
pub trait Ops {
    /// The object may stand in this body after so many operations, whose loads found these numbers.
    ghost at: { Self → Program → Job → List ℕ → ℕ → Type 0 };

    /// The operation took the object from the one to the other.
    ghost goes: { Self → Operation → Self → Type 0 };

    /// The object does no more.
    ghost halted: { Self → Type 0 };

    /// Loads an element of an object.
    fn load(&mut self, object: u32, element: u32) -> Got
        requires { CanDo at halted self.old (λ a. Load object element a) }
        ensures { Found at goes halted self.old (λ a. Load object element a) self.new result };

    /// Stores a value to an element of an object.
    fn store(&mut self, object: u32, element: u32, value: u64) -> Went
        requires { CanDo at halted self.old (λ a. Store object element value) }
        ensures { Followed at goes halted self.old (Store object element value) self.new result };

    /// Folds a value into an element of an object.
    fn fold(&mut self, object: u32, element: u32, op: Op, value: u64) -> Went
        requires { CanDo at halted self.old (λ a. Fold object element op value) }
        ensures { Followed at goes halted self.old (Fold object element op value) self.new result };

    /// Forks a call.
    fn fork(&mut self, child: &Call) -> Went
        requires { CanDo at halted self.old (λ a. Fork child.now) }
        ensures { Followed at goes halted self.old (Fork child.now) self.new result };
}
