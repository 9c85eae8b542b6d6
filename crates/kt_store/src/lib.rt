//! The plain store of a run: the elements of all objects of a program in one list, and the acts of bodies done to them.
#![tactic(auto)]

mod opening;
mod plain;

pub use plain::PlainStore;
