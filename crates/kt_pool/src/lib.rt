//! The pool of a run: its table and the seats of its workers, from the opening to the close.
//!
//! A table is made of the words of the opening: `main` waits in record 0, one task number is drawn, the input stands in the elements. Its rule
//! knows these words alone, so the first step, a load, tells the one seat the program and the input, which are only lent. This seat then makes
//! the seats of all other workers. At the close all seats are joined to the first one again; whoever has them all knows what the run has
//! done, and nobody else can make a step any more, so the words are read as plain memory.
#![tactic(auto)]

mod closing;
mod crews;
pub mod laws;
mod openings;
mod pools;

pub use closing::{Closed, Record};
pub use pools::Pool;
