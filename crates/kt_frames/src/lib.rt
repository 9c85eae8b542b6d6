//! The owner's loop: the tasks of a run one after another on one thread, each task's body whole and then its children.
#![tactic(auto)]

mod faults;
mod frames;
mod loops;
mod opening;
mod owner;
mod run;
#[cfg(test)]
mod tests;
mod turn;

pub use frames::{Frames, Pushed};
pub use run::run_owner;
