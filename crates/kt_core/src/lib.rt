//! A run of a program event by event, whose every order of events gives its reference run.
#![tactic(auto)]

mod claims;
mod links;
mod parts;
mod pieces;
mod rows;
mod running;

pub use kt_tables::{BodyFault, Event, Phase, Stand, Why};
pub use pieces::Piece;
pub use running::Core;
