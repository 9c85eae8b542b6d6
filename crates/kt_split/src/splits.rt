// Splits of intervals.
ghost use Rattle.std.specs.Prelude.{◌≡◌, ◌≤◌, ◌<◌, ◌+◌, ◌-◌, ◌*◌, ◌^◌, min};
ghost use Rattle.kt_split.specs.Splits.{IsCut, IsDivision, IsKept};
ghost use Rattle.kt_split.specs.Dealt.{dealt};

use crate::intervals::len;
use arrayvec::ArrayVec;
use kt_law::WORKERS;
use kt_words::Pair;

/// Parts of one split at most: every worker may be a thief.
pub const PARTS: usize = WORKERS as usize;

/// What a split comes to.
#[derive(Debug, Drop)]
pub enum Division {
    /// The interval has fewer than two positions, just so many.
    Short(u32),
    Cut(Cut),
}

/// The shares of an interval that is cut.
#[derive(Debug, Drop)]
pub struct Cut {
    /// What the victim keeps.
    pub left: Pair,
    /// What thieves get, the piece that lies lowest first.
    pub pieces: ArrayVec<Pair, PARTS>,
}

/// Splits an interval for so many thieves.
pub fn split(interval: Pair, parts: u32) -> Division
    requires some { 1 ≤ parts }
    requires few { parts ≤ PARTS }
    ensures { IsDivision interval parts result }
{
    let length = len(interval);
    if length < 2 {
        Division::Short(length)
    } else {
        Division::Cut(cut_between(interval.low, interval.high, parts))
    }
}

/// Cuts the positions from `low` up to `high` for so many thieves.
fn cut_between(low: u32, high: u32, parts: u32) -> Cut
    requires long { low + 2 ≤ high }
    requires some { 1 ≤ parts }
    requires few { parts ≤ PARTS }
    ensures { IsCut (record { low = low; high = high }) parts result.left result.pieces.items }
{
    let length = high - low;
    let kept = kept(length, parts);
    let rest = length - kept;
    let count = parts.min(rest);
    let middle = low + kept;
    Cut {
        left: Pair { low, high: middle },
        pieces: deal(middle, rest / count, rest % count, count),
    }
}

/// How many of so many positions the victim keeps.
fn kept(length: u32, parts: u32) -> u32
    requires { parts ≤ PARTS }
    ensures { IsKept length parts result }
{
    length.div_ceil(parts + 1)
}

/// So many pieces from a position on, of which the first so many have one position more than `each`.
fn deal(from: u32, each: u32, longer: u32, count: u32) -> ArrayVec<Pair, PARTS>
    requires few { count ≤ PARTS }
    requires part { longer ≤ count }
    requires fits { from + (count * each + longer) < 2 ^ 32 }
    ensures { result.items ≡ dealt from each count longer }
{
    let mut pieces = ArrayVec::new();
    let mut at = from;
    let mut more = longer;
    for index in 0..count {
        let low = at;
        let extra = more.min(1);
        at += each + extra;
        more -= extra;
        pieces.push(Pair { low, high: at });
    }
    pieces
}
