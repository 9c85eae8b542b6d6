//! A seat runs its own interval: positions of a loop that it has begun, or a piece of one that it was given.
//!
//! It takes a chunk of positions from the front, runs the body of each of these indexes in turn, and retires them all at once. Thieves may cut
//! pieces from the end meanwhile.
//!
//! Everything here is proved against the contracts of the calls alone, whatever stands behind them.
#![tactic(auto)]

mod chunks;
mod hands;
mod indexes;
mod intervals;

pub use chunks::{Halfway, run_taken};
pub use intervals::{GRAIN, Ran, run_interval};
