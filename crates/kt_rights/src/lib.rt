//! The laws of the theory of reordering from the tables of modes: a program whose bodies keep to their accesses
//! gives the sequential answer in every order. Nothing here runs.
#![tactic(auto)]

pub mod laws;
mod source;
#[cfg(test)]
mod tests;

pub use source::Source;
