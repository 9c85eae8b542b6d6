//! Calls on the records of a run: how a worker takes a task, runs it and ends it.
//!
//! A call is one step of the table, or a few in a row: a claim loads the word
//! that it exchanges, a publication writes a whole record. What a call answers
//! says how the seat's view moved, and nothing else moves. That each step keeps
//! the rule of the run, and which event of the core it enters, are laws of
//! kt_steps; a call here only writes the words that these laws name.
#![tactic(auto)]

mod accesses;
mod claims;
mod hands;
mod paths;
mod publications;
mod records;
mod states;
mod stop;

pub use accesses::accesses_of;
pub use claims::{claim_for, claim_own, finish, start};
pub use hands::{call_of, number_of};
pub use paths::path_of;
pub use publications::{Published, publish};
pub use states::{Claim, Offer, stand};
pub use stop::stopped;
