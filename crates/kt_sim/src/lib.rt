//! Runs of a program by events of its core alone, in an order that a number chooses: each gives the answer of the reference run.
#![tactic(auto)]

mod bodies;
mod choices;
mod doing;
mod events;
mod faults;
mod loops;
mod operations;
mod run;
mod turns;

pub use run::simulate;
