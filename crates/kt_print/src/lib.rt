//! The texts of answers, and the canonical text of a program.
#![tactic(auto)]

mod lines;
mod printing;
mod rows;
#[cfg(test)]
mod tests;

pub use lines::{Line, line_bytes};
pub use printing::print_program;
pub use rows::rows_bytes;
