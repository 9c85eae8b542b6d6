//! Loops that workers share: how positions are drawn, taken, split and retired.
#![tactic(auto)]

pub mod laws;
