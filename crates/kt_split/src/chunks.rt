// Chunks of intervals.
ghost use Rattle.std.specs.Prelude.{◌≡◌, ◌≤◌, ◌↔◌, IsNone, IfSome};
ghost use Rattle.kt_split.specs.Intervals.{size};
ghost use Rattle.kt_split.specs.Chunks.{IsChunk};

use crate::intervals::{is_empty, len};
use kt_words::Pair;

/// The first positions of an interval, and those behind them.
#[derive(Clone, Copy, Debug, PartialEq, Eq)]
pub struct Chunk {
    pub taken: Pair,
    pub left: Pair,
}

/// Takes at most `grain` positions from the front of an interval; none where there is no position.
pub fn take_chunk(interval: Pair, grain: u32) -> Option<Chunk>
    requires { 1 ≤ grain }
    ensures empty { IsNone result ↔ (size interval ≡ 0) }
    ensures taken { IfSome result (IsChunk interval grain) }
{
    if is_empty(interval) {
        return None;
    }
    let middle = interval.low + grain.min(len(interval));
    Some(Chunk {
        taken: Pair {
            low: interval.low,
            high: middle,
        },
        left: Pair {
            low: middle,
            high: interval.high,
        },
    })
}
