//! Publications: how the running body forks a child.
//!
//! A number is drawn first, by one fetch. Then the fields of the child's record
//! are written, which nobody reads as a task's before the state word says so;
//! that word is stored last. Where the count that was drawn is over the limit,
//! no record changes and the run is told to stop: the reference run has more
//! tasks than a run may have.
ghost use Rattle.std.specs.Prelude.{◌≡◌};
ghost use Rattle.kt_rule.specs.Steps.{StoresStop, Tells};
ghost use Rattle.kt_steps.specs.Told.{IsLiveOf};
ghost use Rattle.kt_tasks.specs.Publications.{HasPublished, MayPublish, DrawsNext};

use crate::records::{announce, write_fields};
use atomic_table::Play;
use kt_law::TASKS;
use kt_prog::Call;
use kt_rule::{RunTable, Seat, View};
use std::marker::Brand;

/// What a publication answers.
#[derive(Clone, Copy, Debug, PartialEq, Eq)]
pub enum Published {
    /// The number that was drawn for the child.
    Published(u32),
    /// How many tasks were drawn, which is over the limit. No record changed, and the run stops.
    Limit(u32),
}

struct Drawing;

impl Play<(), View> for Drawing {
    ghost then = { Tells DrawsNext };
}

struct Halting;

impl Play<(), View> for Halting {
    ghost then = { Tells StoresStop };
}

/// Publishes the child that the running body forks next, in the record `at`. The running body's task lies in the record `parent`.
pub fn publish(
    t: &RunTable,
    s: &mut Seat,
    parent: u32,
    at: u32,
    frame: u64,
    fork: u32,
    child: &Call,
) -> Published
    requires seat { s.old.token.table_id ≡ t.now.table.shared.table_id }
    requires live { IsLiveOf t.now.layout s.old.worker s.old.token.me.0 }
    requires may { MayPublish s.old.token.me.0 parent at frame fork child.now }
    ensures seat { (s.new.token.table_id ≡ s.old.token.table_id)
        × (s.new.token.me.1 ≡ s.old.token.me.1) × (s.new.worker ≡ s.old.worker)
        × (s.new.word ≡ s.old.word) }
    ensures published { HasPublished s.old.token.me.0 parent at frame fork child.now
        s.new.token.me.0 result }
{
    let place = t.layout.tasks_drawn();
    let drawn = t.table.shared.fetch_add::<Drawing>(&mut s.token, place, 1);
    if drawn >= u64::from(TASKS) {
        let stop = t.layout.stop();
        t.table.shared.store::<Halting>(&mut s.token, stop, 1);
        return Published::Limit(drawn as u32 + 1);
    }
    let number = drawn as u32;
    write_fields(t, s, parent, at, number, child);
    announce::<Brand>(t, s, parent, at, frame, fork, number, child);
    Published::Published(number)
}
