//! State words as they are found, and what a claim answers.
ghost use Rattle.std.specs.Prelude.{◌≡◌, ◌*◌, ◌<◌};
ghost use Rattle.kt_rule.specs.Steps.{Tells, stands};
ghost use Rattle.kt_steps.specs.Told.{IsLiveOf, StandsAt};
ghost use Rattle.kt_words.specs.Words.{IsStateWord, packed_state};
ghost use Rattle.kt_words.specs.declared.layouts.TheConstants.{RECORDS};
ghost use Rattle.kt_words.specs.declared.states.StateWord.{StateWord};

use atomic_table::Play;
use kt_law::Stand;
use kt_rule::{RunTable, Seat, View};
use kt_words::fields::STATE;
use kt_words::{StateWord, unpack_state};

/// What a claim of an own record answers.
#[derive(Clone, Copy, Debug, PartialEq, Eq)]
pub enum Claim {
    /// The task is the claiming worker's, and it runs.
    Won,
    /// The record stood so: somebody else has the task.
    Stolen(Stand),
}

/// What a claim for a thief answers.
#[derive(Clone, Copy, Debug, PartialEq, Eq)]
pub enum Offer {
    /// The task is promised to the thief.
    Won,
    /// The record's state word was this one by then.
    Lost(u64),
}

struct Standing;

impl Play<(), View> for Standing {
    ghost then = { Tells StandsAt };
}

/// The state that a word says, where it says one.
pub(crate) fn state_in(word: u64) -> StateWord
    requires packed { (x : StateWord) × IsStateWord x × (word ≡ packed_state x) }
    ensures state { IsStateWord result × (packed_state result ≡ word) }
{
    match unpack_state(word) {
        Some(state) => state,
        None => unreachable!(),
    }
}

/// Looks at a record's state. A look at the record behind the last one goes on with the seat's scan; every other begins one.
pub fn stand(t: &RunTable, s: &mut Seat, at: u32) -> StateWord
    requires seat { s.old.token.table_id ≡ t.now.table.shared.table_id }
    requires live { IsLiveOf t.now.layout s.old.worker s.old.token.me.0 }
    requires inside { at < RECORDS * t.now.layout.workers }
    ensures seat { (s.new.token.table_id ≡ s.old.token.table_id)
        × (s.new.token.me.1 ≡ s.old.token.me.1) × (s.new.worker ≡ s.old.worker) }
    ensures state { IsStateWord result × (packed_state result ≡ s.new.word) }
    ensures looked { s.new.token.me.0 ≡ stands s.old.token.me.0 at s.new.word }
{
    let word = t
        .table
        .shared
        .load::<Standing>(&mut s.token, t.layout.field(at, STATE));
    s.word = word;
    state_in(word)
}
