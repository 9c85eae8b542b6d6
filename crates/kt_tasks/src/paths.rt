//! The path of a task in hand, which its record and those above it say.
//!
//! A record says which fork of its parent its task is, and where the parent's
//! record is. All tasks above one in hand live for as long as it does, so their
//! records are theirs while they are read.
ghost use Rattle.std.specs.Prelude.{◌≡◌, ℕ, ◌*◌, ◌<◌, ◌≤◌, Some, length};
ghost use Rattle.kt_law.specs.declared.limits.TheConstants.{DEPTH};
ghost use Rattle.kt_rule.specs.Steps.{Tells};
ghost use Rattle.kt_rule.specs.declared.views.Spot.{Spot};
ghost use Rattle.kt_steps.specs.Told.{IsLiveOf};
ghost use Rattle.kt_tasks.specs.Climbs.{Climbs, HasClimbed, IsAbove, IsReachedAt, ShowsReached};
ghost use Rattle.kt_tasks.specs.Hands.{IsHeld, IsPathIn};
ghost use Rattle.kt_words.specs.declared.layouts.TheConstants.{RECORDS};

use crate::states::state_in;
use arrayvec::ArrayVec;
use atomic_table::Play;
use kt_prog::PATH;
use kt_rule::{RunTable, Seat, View};
use kt_words::fields::{PARENT, STATE};

struct LookingUp;

impl Play<(), View> for LookingUp {
    ghost then = { Tells ShowsReached };
}

struct Climbing;

impl Play<(), View> for Climbing {
    ghost then = { Tells Climbs };
}

/// Which fork of its parent the task is that lies there, counted from 1.
fn fork_of(t: &RunTable, s: &mut Seat, at: u32) -> u32
    requires seat { s.old.token.table_id ≡ t.now.table.shared.table_id }
    requires live { IsLiveOf t.now.layout s.old.worker s.old.token.me.0 }
    requires inside { at < RECORDS * t.now.layout.workers }
    requires reached { (m : Spot) × IsReachedAt s.old.token.me.0 at m }
    ensures seat { (s.new.token.table_id ≡ s.old.token.table_id) × (s.new.token.me ≡ s.old.token.me)
        × (s.new.worker ≡ s.old.worker) × (s.new.word ≡ s.old.word) }
    ensures fork { (m : Spot) → IsReachedAt s.old.token.me.0 at m → result ≡ m.berth.fork }
    ensures deep { (m : Spot) → IsReachedAt s.old.token.me.0 at m → length m.path ≤ DEPTH }
{
    let word = t
        .table
        .shared
        .load::<LookingUp>(&mut s.token, t.layout.field(at, STATE));
    state_in(word).fork
}

/// The record of its parent, none where `main` lies.
fn above(t: &RunTable, s: &mut Seat, at: u32) -> Option<u32>
    requires seat { s.old.token.table_id ≡ t.now.table.shared.table_id }
    requires live { IsLiveOf t.now.layout s.old.worker s.old.token.me.0 }
    requires inside { at < RECORDS * t.now.layout.workers }
    requires reached { (m : Spot) × IsReachedAt s.old.token.me.0 at m }
    ensures seat { (s.new.token.table_id ≡ s.old.token.table_id)
        × (s.new.token.me.1 ≡ s.old.token.me.1) × (s.new.worker ≡ s.old.worker)
        × (s.new.word ≡ s.old.word) }
    ensures above { (m : Spot) → IsReachedAt s.old.token.me.0 at m
        → IsAbove s.old.token.me.0 m s.new.token.me.0 result }
    ensures inside { (n : ℕ) → result ≡ Some n → n < RECORDS * t.now.layout.workers }
{
    let parent = t
        .table
        .shared
        .load::<Climbing>(&mut s.token, t.layout.field(at, PARENT));
    if parent == 0 {
        return None;
    }
    Some((parent - 1) as u32)
}

/// The path of a task in hand.
pub fn path_of(t: &RunTable, s: &mut Seat, at: u32) -> ArrayVec<u32, PATH>
    requires seat { s.old.token.table_id ≡ t.now.table.shared.table_id }
    requires live { IsLiveOf t.now.layout s.old.worker s.old.token.me.0 }
    requires inside { at < RECORDS * t.now.layout.workers }
    requires held { (m : Spot) × IsHeld s.old.token.me.0 at m }
    ensures seat { (s.new.token.table_id ≡ s.old.token.table_id)
        × (s.new.token.me.1 ≡ s.old.token.me.1) × (s.new.worker ≡ s.old.worker)
        × (s.new.word ≡ s.old.word) }
    ensures moved { HasClimbed s.old.token.me.0 s.new.token.me.0 }
    ensures path { IsPathIn s.old.token.me.0 at result.items }
{
    let mut path = ArrayVec::new();
    let mut record = at;
    for _ in 0..PATH {
        let fork = fork_of(t, s, record);
        match above(t, s, record) {
            Some(parent) => {
                path.insert(0, fork);
                record = parent;
            }
            None => return path,
        }
    }
    path
}
