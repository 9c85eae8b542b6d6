//! The bodies of a program, run from its text on any object that does their operations.
#![tactic(auto)]

mod body;
mod eval;
mod exec;
mod forks;
mod index;
mod lookups;
mod measured;
mod ops;
mod passed;
mod scene;
mod start;
mod targets;
mod walk;
mod writes;
mod zero;

pub use body::run_body;
pub use index::run_index;
pub use ops::{Early, Ended, Got, Ops, Went};
pub use writes::{Write, do_write};
pub use zero::{run_zero, width_at, zero_each};
