//! The table of the tasks of a run: its events, where each can be done and what it does, and the laws of the table.
#![tactic(auto)]

mod events;
pub mod laws;
mod phases;

pub use events::{BodyFault, Event, Phase, Stand, Why};
