//! Runs of an accepted program: states and events over the tree of its tasks, and why every order of them gives the reference run.
#![tactic(auto)]

pub mod laws;
pub mod loops;
pub mod paths;
