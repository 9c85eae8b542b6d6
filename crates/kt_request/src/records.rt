//! One record of a scan: it is noted with its verdict, or cut.
ghost use Rattle.std.specs.Prelude.{◌≡◌, ◌≢◌, ℕ, ◌*◌, ◌<◌, ◌≤◌, List, [], ◌∷◌, ◌++◌, cond, nat_le, length, All};
ghost use Rattle.kt_law.specs.declared.stands.Stand.TheVariants as S;
ghost use Rattle.kt_ready.specs.Contents.{HasFrame, HasRoomOf};
ghost use Rattle.kt_ready.specs.Verdicts.{Entry, IsVerdict};
ghost use Rattle.kt_rule.specs.Records.{fork_in};
ghost use Rattle.kt_rule.specs.Steps.{with_note};
ghost use Rattle.kt_rule.specs.declared.views.Note.{Note};
ghost use Rattle.kt_request.specs.Notes.{HasScan, IsTold, entry, last_word, stand_said, taken_by};
ghost use Rattle.kt_request.specs.Reports.{IsSameSeat};
ghost use Rattle.kt_request.specs.Serving.{IsLast, NoteOf, Saw};
ghost use Rattle.kt_steps.specs.Told.{IsLiveOf};
ghost use Rattle.kt_tasks.specs.Accesses.{IsLookedAt};
ghost use Rattle.kt_tasks.specs.Claims.{IsStateFound};
ghost use Rattle.kt_words.specs.Words.{IsStateWord, packed_state};
ghost use Rattle.kt_words.specs.declared.layouts.TheConstants.{RECORDS};

use kt_law::Stand;
use kt_ready::{Scan, Verdict};
use kt_rule::{RunTable, Seat};
use kt_tasks::accesses_of;
use kt_words::{StateWord, unpack_state};

/// The stand that a state word says.
pub(crate) fn stand_of(word: u64) -> Stand
    requires found { IsStateFound word }
    ensures { result ≡ stand_said word }
{
    match unpack_state(word) {
        Some(state) => state.stand,
        None => unreachable!(),
    }
}

/// Whether an entry in this state is taken into its frame. The record before it was taken in the state `last`, which is that of an
/// empty record where it was not taken.
pub(crate) fn is_taken(last: StateWord, state: StateWord) -> bool
    requires fits { IsStateWord last × IsStateWord state }
    ensures { result ≡ taken_by (packed_state last) (packed_state state) }
{
    state.fork <= 1 || (last.frame == state.frame && last.fork + 1 == state.fork)
}

/// Sees the record that was just looked at: it is noted with its verdict, or cut. Says whether it is ready.
pub(crate) fn see_record(
    t: &RunTable,
    s: &mut Seat,
    scan: &mut Scan,
    at: u32,
    state: StateWord,
    last: StateWord,
) -> bool
    requires seat { s.old.token.table_id ≡ t.now.table.shared.table_id }
    requires live { IsLiveOf t.now.layout s.old.worker s.old.token.me.0 }
    requires inside { at < RECORDS * t.now.layout.workers }
    requires standing { IsStateWord state × (state.stand ≢ S.Empty) }
    requires last { IsStateWord last }
    requires looked { (ns : List Note) × IsLookedAt s.old.token.me.0 at (packed_state state) ns }
    requires room { (length scan.old.notes < scan.old.entries)
        × (t.now.layout.objects ≤ scan.old.objects) }
    ensures seat { IsSameSeat s.old s.new }
    ensures room { HasRoomOf scan.old scan.new }
    ensures saw { (ns : List Note) → IsLookedAt s.old.token.me.0 at (packed_state state) ns
        → HasScan ns scan.old
        → packed_state last ≡ last_word ns
        → Saw s.old.token.me.0 s.new.token.me.0 ns scan.old scan.new at (packed_state state)
        result }
{
    if !is_taken(last, state) {
        scan.cut(at, state.stand);
        return false;
    }
    begin_at(scan, state);
    matches!(see_taken(t, s, scan, at, state), Verdict::Ready)
}

/// Sees an entry that is taken into its frame, with its accesses unless it is finished.
fn see_taken(t: &RunTable, s: &mut Seat, scan: &mut Scan, at: u32, state: StateWord) -> Verdict
    requires seat { s.old.token.table_id ≡ t.now.table.shared.table_id }
    requires live { IsLiveOf t.now.layout s.old.worker s.old.token.me.0 }
    requires inside { at < RECORDS * t.now.layout.workers }
    requires standing { IsStateWord state × (state.stand ≢ S.Empty) }
    requires looked { (ns : List Note) × IsLookedAt s.old.token.me.0 at (packed_state state) ns }
    requires room { (length scan.old.notes < scan.old.entries)
        × (t.now.layout.objects ≤ scan.old.objects) }
    ensures seat { IsSameSeat s.old s.new }
    ensures room { HasRoomOf scan.old scan.new }
    ensures noted { (ns : List Note) → IsLookedAt s.old.token.me.0 at (packed_state state) ns
        → (n : Note) × NoteOf n at (packed_state state) × IsTold n
        × (s.new.token.me.0 ≡ with_note s.old.token.me.0 n ns)
        × (scan.new.notes ≡ scan.old.notes
        ++ (record { at = at; stand = stand_said (packed_state state); verdict = result }) ∷ [])
        × ((frame : List Entry) → HasFrame scan.old frame → IsVerdict frame (entry n) result
        × HasFrame scan.new (frame ++ entry n ∷ [])) }
{
    if matches!(state.stand, Stand::Finished) {
        return scan.see(at, state.stand, &[]);
    }
    let accesses = accesses_of(t, s, at);
    scan.see(at, state.stand, accesses.as_slice())
}

/// A frame begins where the entry is a first one.
fn begin_at(scan: &mut Scan, state: StateWord)
    requires fits { IsStateWord state }
    ensures room { HasRoomOf scan.old scan.new }
    ensures notes { scan.new.notes ≡ scan.old.notes }
    ensures frame { (frame : List Entry) → HasFrame scan.old frame
        → HasFrame scan.new (cond (nat_le (fork_in (packed_state state)) 1) [] frame) }
{
    if state.fork <= 1 {
        scan.begin();
    }
}
