//! A seat with its table: the one thing that a worker makes its calls on.
//!
//! Each call of the worker's interface is here the call on the shared words.
//! Nothing is added but that the seat is one of this table, which is a fact of
//! the type and so needs no word in the worker's loop.
#![tactic(auto)]

mod calls;
mod hands;

pub use hands::{Hand, Home};
