// State words: how far the task of a record is, and which task of which frame it is.
ghost use Rattle.std.specs.Prelude.{◌≡◌, ◌≢◌, ◌<◌, IfSome, IfNone};
ghost use Rattle.kt_words.specs.BitFields.{Unpacks};
ghost use Rattle.kt_words.specs.Words.{IsStateWord, packed_state, stand_number, worker_number};

use crate::bits::{joined, split};
use kt_law::Stand;

// The widths of the fields below the frame, from bit 0 on.
const STAND_BITS: u32 = 3;

const WORKER_BITS: u32 = 3;

const FORK_BITS: u32 = 17;

/// What the state word of a record says. A record without a task has frame 0 and fork 0.
#[derive(Clone, Copy, Debug, PartialEq, Eq)]
pub struct StateWord {
    /// The number of the task's frame, from 1 on for each worker; 0 for `main`.
    pub frame: u64,
    /// The number of the task's fork in its frame, from 1 on; 0 for `main`.
    pub fork: u32,
    pub stand: Stand,
}

/// The word that says this state.
#[tactic(auto, unfolding(crate::specs::Words::packed_state))]
pub fn pack_state(v: &StateWord) -> u64
    requires { IsStateWord v.now }
    ensures { result ≡ packed_state v.now }
{
    let (number, worker) = numbers(v.stand);
    let above = joined(
        worker,
        WORKER_BITS,
        joined(u64::from(v.fork), FORK_BITS, v.frame),
    );
    joined(number, STAND_BITS, above)
}

/// The state that a word says, none where the word is not packed from a state.
pub fn unpack_state(word: u64) -> Option<StateWord>
    ensures { Unpacks IsStateWord packed_state word result }
{
    if word == 0 {
        return Some(StateWord {
            frame: 0,
            fork: 0,
            stand: Stand::Empty,
        });
    }
    let (number, rest) = split(word, STAND_BITS);
    let (worker, rest) = split(rest, WORKER_BITS);
    let (fork, frame) = split(rest, FORK_BITS);
    let stand = stand_of_task(number, worker as u32)?;
    Some(StateWord {
        frame,
        fork: fork as u32,
        stand,
    })
}

/// The number of a stand, and that of its worker.
fn numbers(stand: Stand) -> (u64, u64)
    ensures stand { result.0 ≡ stand_number stand }
    ensures worker { result.1 ≡ worker_number stand }
{
    match stand {
        Stand::Empty => (0, 0),
        Stand::Unclaimed => (1, 0),
        Stand::Given(worker) => (2, u64::from(worker)),
        Stand::Running(worker) => (3, u64::from(worker)),
        Stand::Finished => (4, 0),
    }
}

/// The stand of a task with these numbers.
fn stand_of_task(number: u64, worker: u32) -> Option<Stand>
    ensures number { IfSome result (λ stand. stand_number stand ≡ number) }
    ensures worker { IfSome result (λ stand. worker_number stand ≡ worker) }
    ensures task { IfSome result (λ stand. stand ≢ Stand.Empty) }
    ensures none { IfNone result ((stand : Stand) → stand ≢ Stand.Empty
        → stand_number stand ≡ number → worker_number stand ≢ worker) }
{
    match number {
        1 if worker == 0 => Some(Stand::Unclaimed),
        2 => Some(Stand::Given(worker)),
        3 => Some(Stand::Running(worker)),
        4 if worker == 0 => Some(Stand::Finished),
        _ => None,
    }
}
