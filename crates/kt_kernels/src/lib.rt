//! The kernels of tasks that work on whole tiles and rows: two products of tiles, a stencil and a running sum.
//! Each gives exactly the values of its plain definition, for every shape. The products and the stencil work in
//! vectors of eight numbers, and element by element where fewer than eight are left.
#![tactic(auto)]

mod products;
mod rows;
mod semirings;
#[cfg(test)]
mod tests;

pub use products::{minplus, mul};
pub use rows::{scan, stencil};
