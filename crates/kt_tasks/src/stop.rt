//! The stop word.
ghost use Rattle.std.specs.Prelude.{◌≡◌, if◌then◌else◌};
ghost use Rattle.kt_rule.specs.Steps.{LoadsStop, Tells, knows_stop};
ghost use Rattle.kt_steps.specs.Told.{IsLiveOf};

use atomic_table::Play;
use kt_rule::{RunTable, Seat, View};

struct Stopping;

impl Play<(), View> for Stopping {
    ghost then = { Tells LoadsStop };
}

/// Whether the run stops, since a count went over its limit.
pub fn stopped(t: &RunTable, s: &mut Seat) -> bool
    requires seat { s.old.token.table_id ≡ t.now.table.shared.table_id }
    requires live { IsLiveOf t.now.layout s.old.worker s.old.token.me.0 }
    ensures seat { (s.new.token.table_id ≡ s.old.token.table_id)
        × (s.new.token.me.1 ≡ s.old.token.me.1) × (s.new.worker ≡ s.old.worker)
        × (s.new.word ≡ s.old.word) }
    ensures known { s.new.token.me.0
        ≡ (if result then knows_stop s.old.token.me.0 else s.old.token.me.0) }
{
    t.table
        .shared
        .load::<Stopping>(&mut s.token, t.layout.stop())
        == 1
}
