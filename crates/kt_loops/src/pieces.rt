// How the own interval is filled by a piece, and taken from in chunks.
ghost use Rattle.std.specs.Prelude.{◌≡◌, ◌*◌, ◌<◌, ◌≤◌};
ghost use Rattle.kt_loops.specs.Calls.{HasHeld, HasTaken, MayHold};
ghost use Rattle.kt_loops.specs.Told.{FindsInterval, HoldsAt, TakesChunk};
ghost use Rattle.kt_rule.specs.Steps.{Tells};
ghost use Rattle.kt_steps.specs.Told.{IsLiveOf};
ghost use Rattle.kt_words.specs.declared.layouts.TheConstants.{RECORDS};

use crate::records::{pair_in, set_home};
use atomic_table::Play;
use kt_rule::{RunTable, Seat, View};
use kt_words::{Pair, pack_pair};

/// What a chunk answers.
#[derive(Clone, Copy, Debug, PartialEq, Eq)]
pub enum Taken {
    /// These positions were taken, from the lower up to the higher, the higher not included.
    Got(Pair),
    /// The own interval is empty.
    Empty,
    /// A thief changed the interval meanwhile: the word that was found.
    Moved(u64),
}

struct Holding;

impl Play<(), View> for Holding {
    ghost then = { Tells HoldsAt };
}

struct Finding;

impl Play<(), View> for Finding {
    ghost then = { Tells FindsInterval };
}

struct Taking;

impl Play<(), View> for Taking {
    ghost then = { Tells TakesChunk };
}

/// Makes a piece in hand, of the loop in the record `at`, the own interval.
pub fn take_piece(t: &RunTable, s: &mut Seat, at: u32, piece: Pair)
    requires seat { s.old.token.table_id ≡ t.now.table.shared.table_id }
    requires live { IsLiveOf t.now.layout s.old.worker s.old.token.me.0 }
    requires inside { (s.old.worker < t.now.layout.workers)
        × (at < RECORDS * t.now.layout.workers) }
    requires may { MayHold s.old.token.me.0 at piece }
    ensures seat { (s.new.token.table_id ≡ s.old.token.table_id)
        × (s.new.token.me.1 ≡ s.old.token.me.1) × (s.new.worker ≡ s.old.worker)
        × (s.new.word ≡ s.old.word) }
    ensures held { HasHeld s.old.token.me.0 at piece s.new.token.me.0 }
{
    set_home(t, s, at);
    let word = pack_pair(&piece);
    t.table
        .shared
        .store::<Holding>(&mut s.token, t.layout.interval(s.worker), word);
}

/// Takes at most `grain` positions from the front of the own interval: they are indexes in hand.
pub fn chunk(t: &RunTable, s: &mut Seat, grain: u32) -> Taken
    requires seat { s.old.token.table_id ≡ t.now.table.shared.table_id }
    requires live { IsLiveOf t.now.layout s.old.worker s.old.token.me.0 }
    requires inside { s.old.worker < t.now.layout.workers }
    requires some { 1 ≤ grain }
    ensures seat { (s.new.token.table_id ≡ s.old.token.table_id)
        × (s.new.token.me.1 ≡ s.old.token.me.1) × (s.new.worker ≡ s.old.worker)
        × (s.new.word ≡ s.old.word) }
    ensures taken { HasTaken s.old.token.me.0 grain s.new.token.me.0 result }
{
    let place = t.layout.interval(s.worker);
    let word = t.table.shared.load::<Finding>(&mut s.token, place);
    let interval = pair_in(word);
    let Some(cut) = kt_split::take_chunk(interval, grain) else {
        return Taken::Empty;
    };
    let left = pack_pair(&cut.left);
    let found = t
        .table
        .shared
        .compare_exchange::<Taking>(&mut s.token, place, word, left);
    if found == word {
        Taken::Got(cut.taken)
    } else {
        Taken::Moved(found)
    }
}
