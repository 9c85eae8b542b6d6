//! The reader of jobs.
#![tactic(auto)]

pub mod laws;
mod reader;

pub use reader::{ReadRefusal, read_program};
