//! The rule of a run: what its words and its seats say of the core, and that each kind of step keeps it.
#![tactic(auto)]

mod rules;
mod seats;
mod tables;
mod views;

pub use rules::KaapiRule;
pub use seats::Seat;
pub use tables::RunTable;
pub use views::{
    Berth, Desk, Draws, Execution, Found, Looked, Note, Promise, Region, Seen, Setup, Spot, Stored,
    Tasks, View, Wrote,
};
