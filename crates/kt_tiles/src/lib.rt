//! The bodies of kernels: tiles are loaded from the objects of a call, and what the kernel makes of them is stored or folded.
#![tactic(auto)]

mod kernel;
mod lines;
mod products;
mod rows;
mod tiles;

pub use kernel::run_kernel;
pub use tiles::Tiles;
