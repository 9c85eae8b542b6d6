//! Operations on the elements of a run: each is one step on one word.
//!
//! Only the seat whose index in hand is at that act may do it, or whose running
//! body is, where it runs no index, and the step enters the act in the core. So
//! a body's loads, stores and folds are the acts of its task, and an index's
//! those of the index, in the order of its text.
#![tactic(auto)]

mod elements;
pub mod laws;

pub use elements::{fold, load, store};
