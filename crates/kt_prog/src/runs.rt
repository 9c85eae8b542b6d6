// What bodies do, and what comes of a run.

use crate::calls::Call;
use arrayvec::ArrayVec;
use kt_law::{DEPTH, F, Op};
use sqlite_items::Items;
use std::marker::Model;

/// Numbers in a path.
pub const PATH: usize = DEPTH as usize;

/// One thing that a body does. An act names an object, an element of it and a value.
#[derive(Debug, Drop)]
pub enum Operation {
    Load(u32, u32, u64),
    Store(u32, u32, u64),
    Fold(u32, u32, Op, u64),
    Fork(Call),
    End,
    /// A fault with the line of the statement that met it.
    Fault(F, u32),
}

/// A fault with the task, and in a loop the index, that met it.
#[derive(Debug, Drop)]
pub struct FaultAt {
    pub path: ArrayVec<u32, PATH>,
    pub index: Option<u32>,
    pub fault: F,
    pub line: u32,
}

impl Model for FaultAt {
    ghost use Rattle.kt_prog.specs.Runs.{FaultRun};

    ghost Value = { FaultRun };

    ghost view = { λ f. record { path = f.path.items; index = f.index; fault = f.fault; line = f.line } };
}

/// What a run comes to.
#[derive(Debug, Drop)]
pub enum Outcome {
    /// All elements in the order of their numbers.
    Rows(Items<u64>),
    /// The first fault.
    Fault(FaultAt),
    /// More tasks or indexes than the limits allow.
    Limit,
}

/// What a run comes to, and how many tasks and indexes it had, 0 and 0 at `Limit`.
#[derive(Debug, Drop)]
pub struct Ran {
    pub outcome: Outcome,
    pub tasks: u32,
    pub indexes: u32,
}
