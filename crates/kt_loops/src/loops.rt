// How a loop begins.
ghost use Rattle.std.specs.Prelude.{◌≡◌, ◌*◌, ◌<◌};
ghost use Rattle.kt_loops.specs.Calls.{HasBegun, MayBegin};
ghost use Rattle.kt_loops.specs.Told.{BeginsAt, DrawsPositions};
ghost use Rattle.kt_rule.specs.Steps.{StoresStop, Tells};
ghost use Rattle.kt_steps.specs.Told.{IsLiveOf};
ghost use Rattle.kt_words.specs.declared.layouts.TheConstants.{RECORDS};

use crate::records::{extent, place_first, set_home};
use atomic_table::Play;
use kt_law::INDEXES;
use kt_rule::{RunTable, Seat, View};
use kt_words::{Pair, pack_pair};

/// What the beginning of a loop answers.
#[derive(Clone, Copy, Debug, PartialEq, Eq)]
pub enum Begun {
    /// The loop's first position.
    Begun(u32),
    /// How many positions were drawn, which is over the limit. The loop has not begun, and the run stops.
    Limit(u32),
}

struct Drawing;

impl Play<(), View> for Drawing {
    ghost then = { Tells DrawsPositions };
}

struct Halting;

impl Play<(), View> for Halting {
    ghost then = { Tells StoresStop };
}

struct Beginning;

impl Play<(), View> for Beginning {
    ghost then = { Tells BeginsAt };
}

/// Begins the loop that the seat runs in the record `at`: draws its positions, and makes them the own interval.
pub fn begin_loop(t: &RunTable, s: &mut Seat, at: u32) -> Begun
    requires seat { s.old.token.table_id ≡ t.now.table.shared.table_id }
    requires live { IsLiveOf t.now.layout s.old.worker s.old.token.me.0 }
    requires inside { (s.old.worker < t.now.layout.workers)
        × (at < RECORDS * t.now.layout.workers) }
    requires may { MayBegin s.old.token.me.0 at }
    ensures seat { (s.new.token.table_id ≡ s.old.token.table_id)
        × (s.new.token.me.1 ≡ s.old.token.me.1) × (s.new.worker ≡ s.old.worker)
        × (s.new.word ≡ s.old.word) }
    ensures begun { HasBegun s.old.token.me.0 at s.new.token.me.0 result }
{
    let length = extent(t, s, at).low;
    let place = t.layout.positions_drawn();
    let drawn = t
        .table
        .shared
        .fetch_add::<Drawing>(&mut s.token, place, u64::from(length));
    let count = drawn + u64::from(length);
    if count > u64::from(INDEXES) {
        t.table
            .shared
            .store::<Halting>(&mut s.token, t.layout.stop(), 1);
        return Begun::Limit(count as u32);
    }
    let first = drawn as u32;
    place_first(t, s, at, length, first);
    set_home(t, s, at);
    let word = pack_pair(&Pair {
        low: first,
        high: count as u32,
    });
    t.table
        .shared
        .store::<Beginning>(&mut s.token, t.layout.interval(s.worker), word);
    Begun::Begun(first)
}
