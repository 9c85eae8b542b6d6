//! Trials of single calls on the table of a run, all on one thread. The programs are given as texts, and all else here is tests.
#![tactic(auto)]

mod jobs;
#[cfg(test)]
mod pools;
#[cfg(test)]
mod seats;

pub use jobs::opened;
