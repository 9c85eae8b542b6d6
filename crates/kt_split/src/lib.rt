//! How the positions of a running loop are divided: an interval is split among its worker and thieves, or taken from in chunks.
#![tactic(auto)]

mod chunks;
mod intervals;
pub mod laws;
mod splits;
#[cfg(test)]
mod tests;

pub use chunks::{Chunk, take_chunk};
pub use intervals::{is_empty, len};
pub use splits::{Cut, Division, PARTS, split};
