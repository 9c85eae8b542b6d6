// The words of a loop beside its intervals: what its record tells of its positions, and the own home word.
ghost use Rattle.std.specs.Prelude.{◌≡◌, ◌*◌, ◌<◌, true};
ghost use Rattle.kt_loops.specs.Calls.{MayPlace};
ghost use Rattle.kt_loops.specs.Hands.{homes_at, places_first};
ghost use Rattle.kt_loops.specs.Told.{FindsFirst, HomesAt, IsExtent, PlacesFirst};
ghost use Rattle.kt_rule.specs.Steps.{Tells};
ghost use Rattle.kt_steps.specs.Told.{IsLiveOf};
ghost use Rattle.kt_words.specs.Words.{IsPair, packed_pair};
ghost use Rattle.kt_words.specs.declared.layouts.TheConstants.{RECORDS};

use atomic_table::Play;
use kt_rule::{RunTable, Seat, View};
use kt_words::fields::EXTENT;
use kt_words::{Pair, pack_pair, unpack_pair};

struct Finding;

impl Play<(), View> for Finding {
    ghost then = { Tells FindsFirst };
}

struct Placing;

impl Play<(), View> for Placing {
    ghost then = { Tells PlacesFirst };
}

struct Homing;

impl Play<(), View> for Homing {
    ghost then = { Tells HomesAt };
}

/// What the record of a loop in hand tells: how long the loop is, and its first position.
pub(crate) fn extent(t: &RunTable, s: &mut Seat, at: u32) -> Pair
    requires seat { s.old.token.table_id ≡ t.now.table.shared.table_id }
    requires live { IsLiveOf t.now.layout s.old.worker s.old.token.me.0 }
    requires inside { at < RECORDS * t.now.layout.workers }
    ensures seat { (s.new.token.table_id ≡ s.old.token.table_id)
        × (s.new.token.me.1 ≡ s.old.token.me.1) × (s.new.worker ≡ s.old.worker)
        × (s.new.word ≡ s.old.word) }
    ensures same { s.new.token.me.0 ≡ s.old.token.me.0 }
    ensures extent { IsExtent s.old.token.me.0 at result.low result.high }
{
    let word = t
        .table
        .shared
        .load::<Finding>(&mut s.token, t.layout.field(at, EXTENT));
    pair_in(word)
}

/// The pair that a word says.
pub(crate) fn pair_in(word: u64) -> Pair
    ensures pair { IsPair result × (packed_pair result ≡ word) }
{
    match unpack_pair(word) {
        Some(pair) => pair,
        None => unreachable!(),
    }
}

/// Writes the first position of the loop that the seat is about to begin into its record.
pub(crate) fn place_first(t: &RunTable, s: &mut Seat, at: u32, length: u32, first: u32)
    requires seat { s.old.token.table_id ≡ t.now.table.shared.table_id }
    requires live { IsLiveOf t.now.layout s.old.worker s.old.token.me.0 }
    requires inside { at < RECORDS * t.now.layout.workers }
    requires may { MayPlace s.old.token.me.0 at length first }
    ensures seat { (s.new.token.table_id ≡ s.old.token.table_id)
        × (s.new.token.me.1 ≡ s.old.token.me.1) × (s.new.worker ≡ s.old.worker)
        × (s.new.word ≡ s.old.word) }
    ensures placed { s.new.token.me.0 ≡ places_first s.old.token.me.0 }
{
    let word = pack_pair(&Pair {
        low: length,
        high: first,
    });
    t.table
        .shared
        .store::<Placing>(&mut s.token, t.layout.field(at, EXTENT), word);
}

/// Writes the number of a loop's record into the own home word.
pub(crate) fn set_home(t: &RunTable, s: &mut Seat, at: u32)
    requires seat { s.old.token.table_id ≡ t.now.table.shared.table_id }
    requires live { IsLiveOf t.now.layout s.old.worker s.old.token.me.0 }
    requires inside { (s.old.worker < t.now.layout.workers)
        × (at < RECORDS * t.now.layout.workers) }
    requires free { s.old.token.me.0.loops.free ≡ true }
    ensures seat { (s.new.token.table_id ≡ s.old.token.table_id)
        × (s.new.token.me.1 ≡ s.old.token.me.1) × (s.new.worker ≡ s.old.worker)
        × (s.new.word ≡ s.old.word) }
    ensures set { s.new.token.me.0 ≡ homes_at s.old.token.me.0 at }
{
    let word = u64::from(at) + 1;
    t.table
        .shared
        .store::<Homing>(&mut s.token, t.layout.home(s.worker), word);
}
