//! The kinds of atomic step on the table of a run: each is allowed by the rule, and what it tells.
#![tactic(auto)]

pub mod laws;
