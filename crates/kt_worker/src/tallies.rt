// What a worker keeps in numbers of its own.

use kt_prog::FaultAt;

/// The numbers of a worker.
#[derive(Drop)]
pub struct Tally {
    /// The first record of its region, and how many of them are used.
    pub base: u32,
    pub used: u32,
    /// How many tasks it has begun.
    pub begun: u64,
    /// The least fault so far.
    pub fault: Option<FaultAt>,
    /// At whom it asked last.
    pub victim: u32,
}
