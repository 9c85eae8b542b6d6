//! Canonical texts are read back. The functions of [`laws`] do nothing; their contracts are the laws.
#![tactic(auto)]

pub mod laws;
