// What becomes of indexes in hand, and how many of a loop are left.
ghost use Rattle.std.specs.Prelude.{◌≡◌, ◌*◌, ◌<◌};
ghost use Rattle.kt_loops.specs.Calls.{HasLeft, HasRetired, MayRetire, RunsLoop};
ghost use Rattle.kt_loops.specs.Told.{CountsLeft, IsExtent, RetiresSome};
ghost use Rattle.kt_rule.specs.Steps.{Tells};
ghost use Rattle.kt_steps.specs.Told.{IsLiveOf};
ghost use Rattle.kt_words.specs.declared.layouts.TheConstants.{RECORDS};

use crate::records::extent;
use atomic_table::Play;
use kt_rule::{RunTable, Seat, View};
use kt_words::fields::UNRETIRED;

struct Retiring;

impl Play<(), View> for Retiring {
    ghost then = { Tells RetiresSome };
}

struct Counting;

impl Play<(), View> for Counting {
    ghost then = { Tells CountsLeft };
}

/// Retires the first `count` of the indexes in hand, of the loop in the record `at`: how many of the loop are left.
pub fn retire(t: &RunTable, s: &mut Seat, at: u32, count: u32) -> u32
    requires seat { s.old.token.table_id ≡ t.now.table.shared.table_id }
    requires live { IsLiveOf t.now.layout s.old.worker s.old.token.me.0 }
    requires inside { at < RECORDS * t.now.layout.workers }
    requires may { MayRetire s.old.token.me.0 at count }
    ensures seat { (s.new.token.table_id ≡ s.old.token.table_id)
        × (s.new.token.me.1 ≡ s.old.token.me.1) × (s.new.worker ≡ s.old.worker)
        × (s.new.word ≡ s.old.word) }
    ensures retired { HasRetired s.old.token.me.0 at count s.new.token.me.0 result }
{
    let place = t.layout.field(at, UNRETIRED);
    let found = t
        .table
        .shared
        .fetch_sub::<Retiring>(&mut s.token, place, u64::from(count));
    (found - u64::from(count)) as u32
}

/// How many indexes of the loop that the seat runs in the record `at` are left.
pub fn left(t: &RunTable, s: &mut Seat, at: u32) -> u32
    requires seat { s.old.token.table_id ≡ t.now.table.shared.table_id }
    requires live { IsLiveOf t.now.layout s.old.worker s.old.token.me.0 }
    requires inside { at < RECORDS * t.now.layout.workers }
    requires runs { RunsLoop s.old.token.me.0 at }
    ensures seat { (s.new.token.table_id ≡ s.old.token.table_id)
        × (s.new.token.me.1 ≡ s.old.token.me.1) × (s.new.worker ≡ s.old.worker)
        × (s.new.word ≡ s.old.word) }
    ensures left { HasLeft s.old.token.me.0 s.new.token.me.0 result }
{
    let place = t.layout.field(at, UNRETIRED);
    t.table.shared.load::<Counting>(&mut s.token, place) as u32
}

/// The first position of a loop in hand, which lies in the record `at`: the loop runs, or a piece or an index of it is in hand.
pub fn first_of(t: &RunTable, s: &mut Seat, at: u32) -> u32
    requires seat { s.old.token.table_id ≡ t.now.table.shared.table_id }
    requires live { IsLiveOf t.now.layout s.old.worker s.old.token.me.0 }
    requires inside { at < RECORDS * t.now.layout.workers }
    ensures seat { (s.new.token.table_id ≡ s.old.token.table_id)
        × (s.new.token.me.1 ≡ s.old.token.me.1) × (s.new.worker ≡ s.old.worker)
        × (s.new.word ≡ s.old.word) }
    ensures same { s.new.token.me.0 ≡ s.old.token.me.0 }
    ensures first { (long : _) × IsExtent s.old.token.me.0 at long result }
{
    extent(t, s, at).high
}
