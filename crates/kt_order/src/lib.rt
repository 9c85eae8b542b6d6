//! Why every order of the tasks of a program gives the sequential answer. Nothing here runs: the crate has
//! definitions, and laws that are the contracts of functions which do nothing.
#![tactic(auto)]

pub mod laws;
pub mod loops;
pub mod paths;
mod program;
#[cfg(test)]
mod tests;

pub use program::Program;
