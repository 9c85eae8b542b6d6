//! The workers of a run.
//!
//! A worker runs its frames in order: the body of a task that it has begun, then the task's children, each in turn, then the task is finished.
//! Where the next entry was stolen and is not finished, or where it has no frame, the worker asks for work. It goes over a stack of frames that
//! has its room from the start, and recurses over no tasks.
//!
//! A task that is a loop zeroes what its indexes write, and begins: all its indexes are the own interval of the worker, who runs them. Thieves may
//! take pieces of the interval meanwhile. So the loop is finished only once no index of it is left, and until then the worker asks for work. What it is
//! given may be a piece of a loop, which becomes its own interval.
//!
//! Everything here is proved against the contracts of the calls alone, whatever stands behind them.
//!
//! `work` is the whole of a worker. Its parts are public for those that drive several workers step by step on one thread.
#![tactic(auto)]

mod asking;
mod beginning;
mod body;
mod costs;
mod finishing;
mod gates;
mod hands;
mod looping;
mod scratch;
mod stacks;
mod tallies;
mod turns;
mod workers;
mod working;

pub use beginning::run_begun;
pub use finishing::finish;
pub use gates::{Gate, NoGate};
pub use looping::open_loop;
pub use scratch::{Scratch, Tools};
pub use stacks::Level;
pub use workers::Worker;
pub use working::{Worked, first_turn, tally_of, work};
