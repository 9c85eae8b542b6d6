// How a victim's interval is split for thieves.
ghost use Rattle.std.specs.Prelude.{◌≡◌, ℕ, ◌<◌, ◌≤◌, ◌==◌};
ghost use mathlib.Core.Option.{none};
ghost use prog.Atomic.{either};
ghost use Rattle.atomic_table.specs.Table.{Allows, step};
ghost use Rattle.kt_loops.specs.Calls.{HasSplit};
ghost use Rattle.kt_loops.specs.Told.{Sights, SightsHome, Splits};
ghost use Rattle.kt_rule.specs.Rule.{Holds};
ghost use Rattle.kt_rule.specs.Steps.{Tells};
ghost use Rattle.kt_steps.specs.Told.{IsLiveOf};

use crate::records::pair_in;
use arrayvec::ArrayVec;
use atomic_table::Play;
use kt_rule::{RunTable, Seat, View};
use kt_split::{Division, PARTS};
use kt_words::{Pair, pack_pair};
use std::marker::{Brand, PhantomData};

/// What a split answers.
#[derive(Debug, Drop)]
pub enum Divided {
    /// The record of the loop, and the pieces, which are in hand, in rising order.
    Got(u32, ArrayVec<Pair, PARTS>),
    /// The victim's interval has fewer than two positions, just so many.
    Short(u32),
    /// The interval was changed meanwhile: the word that was found.
    Moved(u64),
}

struct Sighting;

impl Play<(), View> for Sighting {
    ghost then = { Tells Sights };
}

struct SightingHome;

impl Play<(), View> for SightingHome {
    ghost then = { Tells SightsHome };
}

/// For how many parts an interval is cut, which the words of the exchange do not tell.
trait Cutting {
    ghost parts: { ℕ };
}

impl Cutting for Brand {
    ghost parts = { 1 };
}

struct Splitting<C: Cutting>(PhantomData<C>);

impl<C: Cutting> Play<(), View> for Splitting<C> {
    ghost then = { Tells (Splits C.parts) };
}

/// Splits the interval of a victim for so many thieves. The home word is loaded between the load of the interval and its exchange: so it
/// names the record of that interval. The word that was loaded stands behind what the seat found in words of others before.
pub fn split(t: &RunTable, s: &mut Seat, victim: u32, parts: u32) -> Divided
    requires seat { s.old.token.table_id ≡ t.now.table.shared.table_id }
    requires live { IsLiveOf t.now.layout s.old.worker s.old.token.me.0 }
    requires inside { victim < t.now.layout.workers }
    requires some { 1 ≤ parts }
    requires few { parts ≤ PARTS }
    ensures seat { (s.new.token.table_id ≡ s.old.token.table_id)
        × (s.new.token.me.1 ≡ s.old.token.me.1) × (s.new.worker ≡ s.old.worker)
        × (s.new.word ≡ s.old.word) }
    ensures split { HasSplit victim s.old.token.me.0 parts s.new.token.me.0 result }
{
    let place = t.layout.interval(victim);
    let word = t.table.shared.load::<Sighting>(&mut s.token, place);
    let cut = match kt_split::split(pair_in(word), parts) {
        Division::Short(count) => return Divided::Short(count),
        Division::Cut(cut) => cut,
    };
    let home = t
        .table
        .shared
        .load::<SightingHome>(&mut s.token, t.layout.home(victim));
    let left = pack_pair(&cut.left);
    let found = exchange::<Brand>(t, s, parts, place, word, left);
    if found == word {
        Divided::Got(home as u32 - 1, cut.pieces)
    } else {
        Divided::Moved(found)
    }
}

/// Exchanges the word of an interval that is cut for so many parts.
fn exchange<C: Cutting>(
    t: &RunTable,
    s: &mut Seat,
    parts: u32,
    place: usize,
    word: u64,
    left: u64,
) -> u64
    requires seat { s.old.token.table_id ≡ t.now.table.shared.table_id }
    requires inside { place < t.now.table.shared.table_id.words }
    requires parts { C.parts ≡ parts }
    requires may { Allows (Holds t.now.table.shared.key.items) t.now.table.shared.table_id.slots
        s.old.token.id s.old.token.me place (λ n. either (n == word) left n)
        (Tells (Splits parts) (step t.now.table.shared.table_id.slots place word left none)
        s.old.token.me) }
    ensures seat { (s.new.token.table_id ≡ s.old.token.table_id) × (s.new.worker ≡ s.old.worker)
        × (s.new.word ≡ s.old.word) }
    ensures told { Tells (Splits parts)
        (step t.now.table.shared.table_id.slots place word left none)
        s.old.token.me result s.new.token.me }
{
    t.table
        .shared
        .compare_exchange::<Splitting<C>>(&mut s.token, place, word, left)
}
