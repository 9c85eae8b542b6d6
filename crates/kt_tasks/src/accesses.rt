//! The accesses of a record that was just looked at: one load of its head,
//! and one of each access. By then the record may be another task's; then the
//! state word is another one too, and a claim by these notes is lost.
ghost use Rattle.std.specs.Prelude.{◌≡◌, ℕ, ◌*◌, ◌<◌, ◌≤◌, ◌∷◌, List, All, true};
ghost use Rattle.kt_rule.specs.Steps.{Tells, found_so, with_note};
ghost use Rattle.kt_rule.specs.declared.views.Note.{Note};
ghost use Rattle.kt_steps.specs.Told.{IsLiveOf};
ghost use Rattle.kt_tasks.specs.Accesses.{IsAmong, IsCounted, IsLookedAt, ScansAccessAt, ScansHeadAt, found_of};
ghost use Rattle.kt_words.specs.Words.{IsAccess, IsHeadWord, packed_access, packed_head};
ghost use Rattle.kt_words.specs.declared.heads.HeadWord.{HeadWord};
ghost use Rattle.kt_words.specs.declared.layouts.TheConstants.{RECORDS};

use arrayvec::ArrayVec;
use atomic_table::Play;
use kt_law::{ACCESSES, Access};
use kt_rule::{RunTable, Seat, View};
use kt_words::fields::{FIRST_ACCESS, HEAD};
use kt_words::{HeadWord, unpack_access, unpack_head};

struct Heading;

impl Play<(), View> for Heading {
    ghost then = { Tells ScansHeadAt };
}

struct Accessing;

impl Play<(), View> for Accessing {
    ghost then = { Tells ScansAccessAt };
}

/// The accesses of the record that the seat's last look was at, as the loads of this call find them; its note has them then.
pub fn accesses_of(t: &RunTable, s: &mut Seat, at: u32) -> ArrayVec<Access, ACCESSES>
    requires seat { s.old.token.table_id ≡ t.now.table.shared.table_id }
    requires live { IsLiveOf t.now.layout s.old.worker s.old.token.me.0 }
    requires inside { at < RECORDS * t.now.layout.workers }
    requires looked { (word : ℕ) × (ns : List Note) × IsLookedAt s.old.token.me.0 at word ns }
    ensures seat { (s.new.token.table_id ≡ s.old.token.table_id)
        × (s.new.token.me.1 ≡ s.old.token.me.1) × (s.new.worker ≡ s.old.worker)
        × (s.new.word ≡ s.old.word) }
    ensures among { All (IsAmong t.now.layout.objects) result.items }
    ensures found { (word : ℕ) (ns : List Note) → IsLookedAt s.old.token.me.0 at word ns
        → s.new.token.me.0 ≡ with_note s.old.token.me.0 (found_of at word result.items) ns }
{
    let count = accesses_told(t, s, at);
    let mut found = ArrayVec::new();
    for k in 0..count {
        found.push(access_found(t, s, at, k));
    }
    found
}

/// How many accesses the head of the record tells.
fn accesses_told(t: &RunTable, s: &mut Seat, at: u32) -> u32
    requires seat { s.old.token.table_id ≡ t.now.table.shared.table_id }
    requires live { IsLiveOf t.now.layout s.old.worker s.old.token.me.0 }
    requires inside { at < RECORDS * t.now.layout.workers }
    requires looked { (o : Note) × (ns : List Note) × (s.old.token.me.0.seen.notes ≡ o ∷ ns)
        × (o.at ≡ at) }
    ensures seat { (s.new.token.table_id ≡ s.old.token.table_id)
        × (s.new.token.me.1 ≡ s.old.token.me.1) × (s.new.worker ≡ s.old.worker)
        × (s.new.word ≡ s.old.word) }
    ensures few { result ≤ 8 }
    ensures noted { (o : Note) (ns : List Note) → s.old.token.me.0.seen.notes ≡ o ∷ ns
        → s.new.token.me.0
        ≡ with_note s.old.token.me.0 (record o { headed = true; count = result }) ns }
{
    let word = t
        .table
        .shared
        .load::<Heading>(&mut s.token, t.layout.field(at, HEAD));
    head_in(word).accesses
}

/// The access behind the first `k` of the record.
fn access_found(t: &RunTable, s: &mut Seat, at: u32, k: u32) -> Access
    requires seat { s.old.token.table_id ≡ t.now.table.shared.table_id }
    requires live { IsLiveOf t.now.layout s.old.worker s.old.token.me.0 }
    requires inside { at < RECORDS * t.now.layout.workers }
    requires counted { IsCounted s.old.token.me.0 at k }
    ensures seat { (s.new.token.table_id ≡ s.old.token.table_id)
        × (s.new.token.me.1 ≡ s.old.token.me.1) × (s.new.worker ≡ s.old.worker)
        × (s.new.word ≡ s.old.word) }
    ensures among { IsAmong t.now.layout.objects result }
    ensures noted { (o : Note) (ns : List Note) → s.old.token.me.0.seen.notes ≡ o ∷ ns
        → s.new.token.me.0 ≡ with_note s.old.token.me.0 (found_so o result) ns }
{
    let place = t.layout.field(at, FIRST_ACCESS + k);
    let word = t.table.shared.load::<Accessing>(&mut s.token, place);
    access_in(word)
}

/// The head that a word says, where it says one.
fn head_in(word: u64) -> HeadWord
    requires packed { (x : HeadWord) × IsHeadWord x × (word ≡ packed_head x) }
    ensures head { IsHeadWord result × (packed_head result ≡ word) }
{
    match unpack_head(word) {
        Some(head) => head,
        None => unreachable!(),
    }
}

/// The access that a word says, where it says one.
fn access_in(word: u64) -> Access
    requires packed { (x : Access) × IsAccess x × (word ≡ packed_access x) }
    ensures access { IsAccess result × (packed_access result ≡ word) }
{
    match unpack_access(word) {
        Some(access) => access,
        None => unreachable!(),
    }
}
