// Pairs of numbers.
ghost use Rattle.std.specs.Prelude.{◌≡◌, IsSome};
ghost use Rattle.kt_words.specs.BitFields.{Unpacks};
ghost use Rattle.kt_words.specs.Words.{IsPair, packed_pair};

use crate::bits::{joined, split};

const HALF_BITS: u32 = 32;

/// Two numbers in one word, such as the ends of an interval. Either may be the larger.
#[derive(Clone, Copy, Debug, Default, PartialEq, Eq)]
pub struct Pair {
    /// The number in the lower half.
    pub low: u32,
    /// The number in the upper half.
    pub high: u32,
}

/// The word with these halves.
#[tactic(auto, unfolding(crate::specs::Words::packed_pair))]
pub fn pack_pair(v: &Pair) -> u64
    ensures { result ≡ packed_pair v.now }
{
    joined(u64::from(v.low), HALF_BITS, u64::from(v.high))
}

/// The halves of a word. Every word has them.
pub fn unpack_pair(word: u64) -> Option<Pair>
    ensures some { IsSome result }
    ensures exact { Unpacks IsPair packed_pair word result }
{
    let (low, high) = split(word, HALF_BITS);
    Some(Pair {
        low: low as u32,
        high: high as u32,
    })
}
