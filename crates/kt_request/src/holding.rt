//! Holding the requests that are posted at a victim.
ghost use Rattle.std.specs.Prelude.{◌≡◌, ℕ, ◌<◌, ◌≤◌, List, [], ◌++◌, true, length};
ghost use Rattle.kt_rule.specs.declared.views.Found.{Found};
ghost use Rattle.kt_request.specs.Reports.{InOrder, IsSameSeat, posted_at};
ghost use Rattle.kt_request.specs.Serving.{HeldInto};
ghost use Rattle.kt_steps.specs.Told.{IsLiveOf};

use crate::served::THIEVES;
use arrayvec::ArrayVec;
use kt_posts::hold;
use kt_rule::{RunTable, Seat};

/// Holds all requests that are posted at the victim, looking at the workers in rising order.
pub(crate) fn hold_all(t: &RunTable, s: &mut Seat, victim: u32) -> ArrayVec<u32, THIEVES>
    requires seat { s.old.token.table_id ≡ t.now.table.shared.table_id }
    requires live { IsLiveOf t.now.layout s.old.worker s.old.token.me.0 }
    requires inside { t.now.layout.workers ≤ 8 }
    requires leads { (s.old.token.me.0.desk.leads ≡ true) × (s.old.token.me.0.desk.victim ≡ victim)
        × (s.old.token.me.0.desk.held ≡ []) }
    ensures seat { IsSameSeat s.old s.new }
    ensures held { (fs : List Found) × InOrder 0 fs × (length fs ≡ t.now.layout.workers)
        × (result.items ≡ posted_at victim fs)
        × (s.new.token.me.0 ≡ record s.old.token.me.0 {
          desk = record s.old.token.me.0.desk {
            held = result.items;
            found = s.old.token.me.0.desk.found ++ fs;
          };
        }) }
{
    let mut held = ArrayVec::new();
    for thief in 0..t.layout.workers {
        hold_into(t, s, thief, victim, &mut held);
    }
    held
}

/// Holds the request of one worker where it is posted at the victim.
fn hold_into(t: &RunTable, s: &mut Seat, thief: u32, victim: u32, held: &mut ArrayVec<u32, THIEVES>)
    requires seat { s.old.token.table_id ≡ t.now.table.shared.table_id }
    requires live { IsLiveOf t.now.layout s.old.worker s.old.token.me.0 }
    requires inside { (thief < t.now.layout.workers) × (t.now.layout.workers ≤ 8) }
    requires leads { (s.old.token.me.0.desk.leads ≡ true)
        × (s.old.token.me.0.desk.victim ≡ victim) }
    requires room { length held.old.items ≤ thief }
    ensures seat { IsSameSeat s.old s.new }
    ensures held { (n : ℕ)
        × HeldInto victim thief n s.old.token.me.0 s.new.token.me.0 held.old.items held.new.items }
{
    if !hold(t, s, victim, thief) {
        return;
    }
    held.push(thief);
}
