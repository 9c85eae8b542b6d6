// Head words: which task a record is for.
ghost use Rattle.std.specs.Prelude.{◌≡◌};
ghost use Rattle.kt_words.specs.BitFields.{Unpacks};
ghost use Rattle.kt_words.specs.Words.{IsHeadWord, packed_head};

use crate::bits::{joined, split};
use kt_law::{ACCESSES, INTS};

// The widths of the fields, from bit 0 on; the two counts have one width.
const TASK_BITS: u32 = 16;

const DEPTH_BITS: u32 = 6;

const NUMBER_BITS: u32 = 26;

const COUNT_BITS: u32 = 4;

/// What the head word of a record says of its task.
#[derive(Clone, Copy, Debug, PartialEq, Eq)]
pub struct HeadWord {
    /// The number of the task's definition.
    pub task: u32,
    pub depth: u32,
    /// The number that was drawn for the task.
    pub number: u32,
    /// How many ints the definition has.
    pub ints: u32,
    /// How many accesses the definition has.
    pub accesses: u32,
}

/// The word that says this head.
#[tactic(auto, unfolding(crate::specs::Words::packed_head))]
pub fn pack_head(v: &HeadWord) -> u64
    requires { IsHeadWord v.now }
    ensures { result ≡ packed_head v.now }
{
    let counts = joined(u64::from(v.ints), COUNT_BITS, u64::from(v.accesses));
    let above = joined(u64::from(v.number), NUMBER_BITS, counts);
    joined(
        u64::from(v.task),
        TASK_BITS,
        joined(u64::from(v.depth), DEPTH_BITS, above),
    )
}

/// The head that a word says, none where the word is not packed from a head.
pub fn unpack_head(word: u64) -> Option<HeadWord>
    ensures { Unpacks IsHeadWord packed_head word result }
{
    let (task, rest) = split(word, TASK_BITS);
    let (depth, rest) = split(rest, DEPTH_BITS);
    let (number, rest) = split(rest, NUMBER_BITS);
    let (ints, accesses) = split(rest, COUNT_BITS);
    if ints > INTS as u64 || accesses > ACCESSES as u64 {
        return None;
    }
    Some(HeadWord {
        task: task as u32,
        depth: depth as u32,
        number: number as u32,
        ints: ints as u32,
        accesses: accesses as u32,
    })
}
