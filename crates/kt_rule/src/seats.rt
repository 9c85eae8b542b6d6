//! The seat of a worker.

use crate::views::View;

/// A worker's place at the table of its run.
#[derive(Drop)]
pub struct Seat {
    /// The table's own seat, whose view contracts speak of.
    pub token: atomic_table::Seat<(), View>,
    /// The number of the worker, as the view has it.
    pub worker: u32,
    /// The state word that its last look at a record found, and 0 before.
    pub word: u64,
}
