//! A program of tasks as it is read, when it is accepted, what its bodies do, and the sequential run that decides the answer.
#![tactic(auto)]

mod calls;
mod counts;
mod faults;
mod form;
mod kernel;
pub mod laws;
mod names;
mod programs;
mod runs;
mod scope;
mod sight;
#[cfg(test)]
mod tests;

pub use calls::Call;
pub use counts::{elements, first_element, inputs, objects, width};
pub use form::Form;
pub use kernel::Kernel;
pub use names::Name;
pub use programs::{
    Arg, ArgWhat, Expr, Family, Index, Main, Param, Program, Sort, Stmt, Task, What,
};
pub use runs::{FaultAt, Operation, Outcome, PATH, Ran};
pub use scope::{Bound, Local, NAMES};
pub use sight::{Kind, Known};
