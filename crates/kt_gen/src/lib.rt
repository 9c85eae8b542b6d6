//! The generated jobs: programs of four kinds, of a size, with numbers drawn from one number. That their runs keep the
//! limits and have no fault is a law of `kt_gen_runs`.
#![tactic(auto)]

mod making;
mod numbers;
mod parts;
mod programs;
#[cfg(test)]
mod tests;

pub use making::{job_bytes, make};
