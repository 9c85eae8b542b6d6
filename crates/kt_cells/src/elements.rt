//! The operations on elements. Each is the next one of the index that the seat runs, or of the running body where it runs none, and its step enters
//! it in the seat's view.
ghost use Rattle.std.specs.Prelude.{◌≡◌, ◌<◌};
ghost use Rattle.kt_law.specs.Acts.{Fold, Load, Store};
ghost use Rattle.kt_loops.specs.Operations.{DidOne, DoesOne, IsNextOn};
ghost use Rattle.kt_rule.specs.Steps.{Tells};
ghost use Rattle.kt_steps.specs.Told.{IsLiveOf};

use atomic_table::Play;
use kt_law::Op;
use kt_rule::{RunTable, Seat, View};

struct Doing;

impl Play<(), View> for Doing {
    ghost then = { Tells DoesOne };
}

/// Loads an element: the number that it holds.
pub fn load(t: &RunTable, s: &mut Seat, element: u32) -> u64
    requires seat { s.old.token.table_id ≡ t.now.table.shared.table_id }
    requires live { IsLiveOf t.now.layout s.old.worker s.old.token.me.0 }
    requires inside { element < t.now.layout.elements }
    requires next { IsNextOn s.old.token.me.0 element Load }
    ensures seat { (s.new.token.table_id ≡ s.old.token.table_id)
        × (s.new.token.me.1 ≡ s.old.token.me.1) × (s.new.worker ≡ s.old.worker)
        × (s.new.word ≡ s.old.word) }
    ensures loaded { DidOne s.old.token.me.0 result s.new.token.me.0 }
{
    t.table
        .shared
        .load::<Doing>(&mut s.token, t.layout.element(element))
}

/// Stores a number in an element.
pub fn store(t: &RunTable, s: &mut Seat, element: u32, value: u64)
    requires seat { s.old.token.table_id ≡ t.now.table.shared.table_id }
    requires live { IsLiveOf t.now.layout s.old.worker s.old.token.me.0 }
    requires inside { element < t.now.layout.elements }
    requires next { IsNextOn s.old.token.me.0 element (Store value) }
    ensures seat { (s.new.token.table_id ≡ s.old.token.table_id)
        × (s.new.token.me.1 ≡ s.old.token.me.1) × (s.new.worker ≡ s.old.worker)
        × (s.new.word ≡ s.old.word) }
    ensures stored { DidOne s.old.token.me.0 value s.new.token.me.0 }
{
    t.table
        .shared
        .store::<Doing>(&mut s.token, t.layout.element(element), value);
}

/// Folds a number into an element, in one fetch.
pub fn fold(t: &RunTable, s: &mut Seat, element: u32, op: Op, value: u64)
    requires seat { s.old.token.table_id ≡ t.now.table.shared.table_id }
    requires live { IsLiveOf t.now.layout s.old.worker s.old.token.me.0 }
    requires inside { element < t.now.layout.elements }
    requires next { IsNextOn s.old.token.me.0 element (Fold op value) }
    ensures seat { (s.new.token.table_id ≡ s.old.token.table_id)
        × (s.new.token.me.1 ≡ s.old.token.me.1) × (s.new.worker ≡ s.old.worker)
        × (s.new.word ≡ s.old.word) }
    ensures folded { (found : _) × DidOne s.old.token.me.0 found s.new.token.me.0 }
{
    let at = t.layout.element(element);
    match op {
        Op::Add => t.table.shared.fetch_add::<Doing>(&mut s.token, at, value),
        Op::Min => t.table.shared.fetch_min::<Doing>(&mut s.token, at, value),
        Op::Max => t.table.shared.fetch_max::<Doing>(&mut s.token, at, value),
        Op::And => t.table.shared.fetch_and::<Doing>(&mut s.token, at, value),
        Op::Or => t.table.shared.fetch_or::<Doing>(&mut s.token, at, value),
        Op::Xor => t.table.shared.fetch_xor::<Doing>(&mut s.token, at, value),
    };
}
