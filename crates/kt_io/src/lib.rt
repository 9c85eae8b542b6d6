//! Bytes in and out: sources and sinks that count their faults, and reading and writing whole texts over them.
#![tactic(auto)]

pub mod laws;
mod memory;
mod standard;
mod streams;
#[cfg(test)]
mod tests;
mod whole;

pub use memory::{MemSink, MemSource};
pub use standard::{StdSink, StdSource};
pub use streams::{Failed, Sink, Source};
pub use whole::{ReadError, read_all, write_all};
