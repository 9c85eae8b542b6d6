//! What a body did is told in one list of operations. The functions of [`laws`] do nothing; their contracts are the laws.
#![tactic(auto)]

pub mod laws;
