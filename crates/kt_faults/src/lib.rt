//! The first of some faults, which is the answer of a run: of two by code, of many by laws.
#![tactic(auto)]

mod first;
pub mod laws;

pub use first::earlier;
