//! The scan of a victim's records, with a claim for the first thief that has none yet.
ghost use Rattle.std.specs.Prelude.{◌≡◌, ◌≢◌, ℕ, ◌+◌, ◌*◌, ◌%◌, ◌<◌, ◌≤◌, List, [], ◌∷◌, true, false, cond, take, length, slice_index};
ghost use Rattle.kt_law.specs.declared.stands.Stand.TheVariants as S;
ghost use Rattle.kt_ready.specs.Contents.{HasRoomOf};
ghost use Rattle.kt_ready.specs.declared.verdicts.Seen.{Seen};
ghost use Rattle.kt_rule.specs.declared.views.Note.{Note};
ghost use Rattle.kt_rule.specs.declared.views.View.{View};
ghost use Rattle.kt_request.specs.Notes.{last_word, ready_records, taken_by};
ghost use Rattle.kt_request.specs.Reports.{IsSameSeat};
ghost use Rattle.kt_request.specs.Serving.{Claimed, Claims, Dealt, Ended, IsLast, Promised, Scanned, Turned};
ghost use Rattle.kt_steps.specs.Told.{IsLiveOf};
ghost use Rattle.kt_words.specs.Words.{IsStateWord, packed_state};
ghost use Rattle.kt_words.specs.declared.layouts.TheConstants.{RECORDS};

use crate::records::{is_taken, see_record, stand_of};
use crate::served::THIEVES;
use arrayvec::ArrayVec;
use kt_law::Stand;
use kt_ready::Scan;
use kt_rule::{RunTable, Seat};
use kt_tasks::{Offer, claim_for, stand};
use kt_words::{RECORDS, StateWord};

/// The state of a record without a task.
const EMPTY: StateWord = StateWord {
    frame: 0,
    fork: 0,
    stand: Stand::Empty,
};

/// Claims the entry that was just noted Ready for a thief, or notes how it was found.
fn claim(t: &RunTable, s: &mut Seat, scan: &mut Scan, thief: u32, at: u32, state: StateWord) -> bool
    requires seat { s.old.token.table_id ≡ t.now.table.shared.table_id }
    requires live { IsLiveOf t.now.layout s.old.worker s.old.token.me.0 }
    requires inside { (at < RECORDS * t.now.layout.workers) × (thief < t.now.layout.workers)
        × (thief < 8) }
    requires state { IsStateWord state }
    requires claims { (first : ℕ) × (ns : List Note) × (n : Note)
        × (earlier : List Seen) × (last : Seen)
        × Claims s.old.token.me.0 scan.old first ns n earlier last at (packed_state state) }
    ensures seat { IsSameSeat s.old s.new }
    ensures room { HasRoomOf scan.old scan.new }
    ensures claimed { (first : ℕ) (ns : List Note) (n : Note) (earlier : List Seen) (last : Seen)
        → Claims s.old.token.me.0 scan.old first ns n earlier last at (packed_state state)
        → Claimed s.old.token.me.0 s.new.token.me.0 scan.old scan.new ns earlier
        at (packed_state state) thief result }
{
    kt_ready::laws::ready_clashes_with_none();
    kt_law::laws::clash_is_symmetric();
    match claim_for(t, s, at, state, thief) {
        Offer::Won => true,
        Offer::Lost(found) => {
            let stand = stand_of(found);
            scan.lost(stand);
            false
        }
    }
}

/// Claims the entry that was just noted Ready for the first held thief that has none yet, if there is one.
fn offer(
    t: &RunTable,
    s: &mut Seat,
    scan: &mut Scan,
    held: &[u32],
    given: &mut ArrayVec<u32, THIEVES>,
    at: u32,
    state: StateWord,
)
    requires seat { s.old.token.table_id ≡ t.now.table.shared.table_id }
    requires live { IsLiveOf t.now.layout s.old.worker s.old.token.me.0 }
    requires inside { (at < RECORDS * t.now.layout.workers) × (t.now.layout.workers ≤ 8) }
    requires held { (length held.now ≤ 8)
        × ((i : ℕ) → i < length held.now → slice_index held.now i < t.now.layout.workers) }
    requires state { IsStateWord state }
    requires claims { (first : ℕ) × (ns : List Note) × (n : Note)
        × (earlier : List Seen) × (last : Seen)
        × Claims s.old.token.me.0 scan.old first ns n earlier last at (packed_state state) }
    ensures seat { IsSameSeat s.old s.new }
    ensures room { HasRoomOf scan.old scan.new }
    ensures dealt { (first : ℕ) (ns : List Note) (n : Note) (earlier : List Seen) (last : Seen)
        → Claims s.old.token.me.0 scan.old first ns n earlier last at (packed_state state)
        → given.old.items ≡ take (length held.now) (ready_records earlier)
        → Promised held.now given.old.items s.old.token.me.0.tasks.promised
        → Dealt s.old.token.me.0 s.new.token.me.0 scan.new ns held.now given.new.items
        at (packed_state state) }
{
    if given.len() >= held.len() {
        return;
    }
    let thief = held[given.len()];
    if claim(t, s, scan, thief, at, state) {
        given.push(at);
    }
}

/// One record of the scan: the state in which it was taken, or None where there is no task.
fn turn(
    t: &RunTable,
    s: &mut Seat,
    scan: &mut Scan,
    held: &[u32],
    given: &mut ArrayVec<u32, THIEVES>,
    at: u32,
    last: StateWord,
) -> Option<StateWord>
    requires seat { s.old.token.table_id ≡ t.now.table.shared.table_id }
    requires live { IsLiveOf t.now.layout s.old.worker s.old.token.me.0 }
    requires inside { (at < RECORDS * t.now.layout.workers) × (t.now.layout.workers ≤ 8) }
    requires held { (length held.now ≤ 8)
        × ((i : ℕ) → i < length held.now → slice_index held.now i < t.now.layout.workers) }
    requires room { (RECORDS ≤ scan.old.entries) × (t.now.layout.objects ≤ scan.old.objects) }
    requires scanned { (first : ℕ) × (v0 : View) × (ns : List Note)
        × Scanned first held.now v0 ns s.old.token.me.0 scan.old given.old.items
        × (at ≡ first + length ns) × IsLast last ns × (first % RECORDS ≡ 0)
        × (length ns < RECORDS) }
    ensures seat { IsSameSeat s.old s.new }
    ensures room { HasRoomOf scan.old scan.new }
    ensures turned { (first : ℕ) (v0 : View) (ns : List Note)
        → Scanned first held.now v0 ns s.old.token.me.0 scan.old given.old.items
        → at ≡ first + length ns → IsLast last ns → first % RECORDS ≡ 0 → length ns < RECORDS
        → Turned first held.now v0 ns s.new.token.me.0 scan.old scan.new given.old.items
        given.new.items at result }
{
    let state = stand(t, s, at);
    if matches!(state.stand, Stand::Empty) {
        return None;
    }
    if !see_record(t, s, scan, at, state, last) {
        return Some(last_of(last, state));
    }
    offer(t, s, scan, held, given, at, state);
    Some(last_of(last, state))
}

/// The state of a record that was taken, and else an empty one.
fn last_of(last: StateWord, state: StateWord) -> StateWord
    requires fits { IsStateWord last × IsStateWord state }
    ensures fits { IsStateWord result }
    ensures word { packed_state result
        ≡ cond (taken_by (packed_state last) (packed_state state)) (packed_state state) 0 }
{
    if is_taken(last, state) { state } else { EMPTY }
}

/// Scans the records from the first one on, up to the first one without a task, and claims for the held thieves.
pub(crate) fn scan_all(
    t: &RunTable,
    s: &mut Seat,
    scan: &mut Scan,
    held: &[u32],
    first: u32,
) -> ArrayVec<u32, THIEVES>
    requires seat { s.old.token.table_id ≡ t.now.table.shared.table_id }
    requires live { IsLiveOf t.now.layout s.old.worker s.old.token.me.0 }
    requires inside { (first + RECORDS ≤ RECORDS * t.now.layout.workers) × (first % RECORDS ≡ 0)
        × (t.now.layout.workers ≤ 8) }
    requires held { (length held.now ≤ 8)
        × ((i : ℕ) → i < length held.now → slice_index held.now i < t.now.layout.workers) }
    requires room { (RECORDS ≤ scan.old.entries) × (t.now.layout.objects ≤ scan.old.objects) }
    requires none_promised { s.old.token.me.0.tasks.promised ≡ [] }
    ensures seat { IsSameSeat s.old s.new }
    ensures room { HasRoomOf scan.old scan.new }
    ensures ended { (ns : List Note)
        × Ended first held.now s.old.token.me.0 ns s.new.token.me.0 scan.new result.items }
{
    scan.restart();
    let mut given = ArrayVec::new();
    let mut last = EMPTY;
    for i in 0..RECORDS {
        match turn(t, s, scan, held, &mut given, first + i, last) {
            Some(state) => last = state,
            None => return given,
        }
    }
    given
}
