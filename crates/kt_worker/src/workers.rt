// A worker at work.

use crate::tallies::Tally;
use crossbeam_utils::Backoff;
use kt_calls::Run;
use kt_prog::Program;

/// A worker with its seat.
pub struct Worker<'a, R: Run> {
    pub run: R,
    pub program: &'a Program,
    /// The number of each object's element 0.
    pub firsts: &'a [u32],
    /// How long it waits between two tries: the longer, the more of them gave nothing.
    pub pause: &'a Backoff,
    pub tally: Tally,
}
