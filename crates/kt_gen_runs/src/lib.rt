//! What the runs of the generated jobs come to: a law over the programs that `kt_gen` makes. Nothing here runs.
#![tactic(auto)]

pub mod laws;
