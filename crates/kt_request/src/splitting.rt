//! The split for thieves that got no task.
ghost use Rattle.std.specs.Prelude.{◌≡◌, ◌<◌, ◌≤◌};
ghost use Rattle.kt_request.specs.Reports.{IsSameSeat};
ghost use Rattle.kt_request.specs.Serving.{HasSplitFor};
ghost use Rattle.kt_steps.specs.Told.{IsLiveOf};

use kt_loops::{Divided, split};
use kt_rule::{RunTable, Seat};

/// Splits the victim's interval for the thieves that are left without a task, once, if there are any.
pub(crate) fn split_for(t: &RunTable, s: &mut Seat, victim: u32, left: usize) -> Option<Divided>
    requires seat { s.old.token.table_id ≡ t.now.table.shared.table_id }
    requires live { IsLiveOf t.now.layout s.old.worker s.old.token.me.0 }
    requires inside { victim < t.now.layout.workers }
    requires few { left ≤ 8 }
    ensures seat { IsSameSeat s.old s.new }
    ensures split { HasSplitFor victim s.old.token.me.0 left s.new.token.me.0 result }
{
    if left == 0 {
        return None;
    }
    Some(split(t, s, victim, left as u32))
}
