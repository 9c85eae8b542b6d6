// Intervals of positions: the positions from the lower number up to the higher, the higher not included; none where the lower is not below
// the higher.
ghost use Rattle.std.specs.Prelude.{◌≡◌, ◌↔◌, IsTrue};
ghost use Rattle.kt_split.specs.Intervals.{size};

use kt_words::Pair;

/// How many positions an interval has.
pub fn len(interval: Pair) -> u32
    ensures { result ≡ size interval }
{
    interval.high.saturating_sub(interval.low)
}

pub fn is_empty(interval: Pair) -> bool
    ensures { IsTrue result ↔ (size interval ≡ 0) }
{
    len(interval) == 0
}
