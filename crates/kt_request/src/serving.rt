//! The whole of a serve.
ghost use Rattle.std.specs.Prelude.{◌≡◌, ◌<◌, ◌≤◌, [], true};
ghost use Rattle.kt_ready.specs.Contents.{HasRoomOf};
ghost use Rattle.kt_request.specs.Reports.{IsSameSeat, Reports, ServedOnly};
ghost use Rattle.kt_steps.specs.Told.{IsLiveOf};
ghost use Rattle.kt_words.specs.declared.layouts.TheConstants.{RECORDS};

use crate::answering::answer_all;
use crate::holding::hold_all;
use crate::scanning::scan_all;
use crate::served::Served;
use crate::splitting::split_for;
use kt_posts::release;
use kt_ready::Scan;
use kt_rule::{RunTable, Seat};
use kt_words::RECORDS;

/// Serves the requests at a victim, which the seat leads: all that are posted are held and answered
/// from one scan of the victim's records, and from one split of its interval for those that are left;
/// then the lead is given up. The scan was reserved for all objects and for as many entries as a
/// region has records.
pub fn serve(t: &RunTable, s: &mut Seat, victim: u32, scan: &mut Scan) -> Served
    requires seat { s.old.token.table_id ≡ t.now.table.shared.table_id }
    requires live { IsLiveOf t.now.layout s.old.worker s.old.token.me.0 }
    requires inside { (victim < t.now.layout.workers) × (t.now.layout.workers ≤ 8) }
    requires leads { (s.old.token.me.0.desk.leads ≡ true)
        × (s.old.token.me.0.desk.victim ≡ victim) }
    requires begins { (s.old.token.me.0.desk.held ≡ []) × (s.old.token.me.0.tasks.promised ≡ []) }
    requires room { (RECORDS ≤ scan.old.entries) × (t.now.layout.objects ≤ scan.old.objects) }
    ensures seat { IsSameSeat s.old s.new }
    ensures room { HasRoomOf scan.old scan.new }
    ensures report { Reports t.now.layout.workers victim s.old.token.me.0 s.new.token.me.0 scan.new
        result }
    ensures others { ServedOnly s.old.token.me.0 s.new.token.me.0 }
{
    let held = hold_all(t, s, victim);
    let given = scan_all(t, s, scan, held.as_slice(), RECORDS * victim);
    let cut = split_for(t, s, victim, held.len() - given.len());
    let answers = answer_all(t, s, held.as_slice(), given.as_slice(), &cut);
    release(t, s, victim);
    Served { held, answers, cut }
}
