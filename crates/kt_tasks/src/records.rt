//! The next record of a seat's region: its fields are written one by one, and
//! its state word publishes it.
ghost use Rattle.std.specs.Prelude.{◌≡◌, ◌≢◌, ℕ, ◌+◌, ◌*◌, ◌<◌, ◌≤◌, ◌∷◌, List, length};
ghost use mathlib.Core.Option.{some};
ghost use lib.ListN.{get_elem?};
ghost use Rattle.kt_law.specs.declared.limits.TheConstants.{ACCESSES, INTS};
ghost use Rattle.kt_law.specs.declared.accesses.Access.{Access};
ghost use Rattle.kt_rule.specs.Lists.{In};
ghost use Rattle.kt_rule.specs.Steps.{MaySet, Tells, builds, published};
ghost use Rattle.kt_rule.specs.declared.views.Berth.{Berth};
ghost use Rattle.kt_rule.specs.declared.views.Execution.{Execution};
ghost use Rattle.kt_rule.specs.declared.views.Stored.{Stored};
ghost use Rattle.kt_steps.specs.Told.{IsLiveOf};
ghost use Rattle.kt_tasks.specs.Fields.{AreClear, HasFilled, HasWritten, IsNext, IsWritable, MayAnnounce, PublishesAs, SetsField};
ghost use Rattle.kt_tasks.specs.Publications.{berth_of};
ghost use Rattle.kt_words.specs.Words.{packed_access, IsAccess};
ghost use Rattle.kt_words.specs.declared.layouts.TheConstants.{FIELDS, RECORDS};

use atomic_table::Play;
use kt_law::{Access, Stand};
use kt_prog::Call;
use kt_rule::{RunTable, Seat, View};
use kt_words::fields::{EXTENT, FIRST_ACCESS, FIRST_INT, HEAD, PARENT, STATE, UNRETIRED};
use kt_words::{HeadWord, Pair, StateWord, pack_access, pack_head, pack_pair, pack_state};
use std::marker::{Brand, PhantomData};

/// Where the child lies that is to be published, and what is known of it for good.
pub(crate) trait Berthed {
    ghost berth: { Berth };
}

impl Berthed for Brand {
    ghost use Rattle.kt_rule.specs.Views.{main_berth};

    ghost berth = { main_berth };
}

struct Setting;

impl Play<(), View> for Setting {
    ghost then = { Tells SetsField };
}

struct Announcing<B: Berthed>(PhantomData<B>);

impl<B: Berthed> Play<(), View> for Announcing<B> {
    ghost then = { Tells (PublishesAs B.berth) };
}

/// Sets a field of the seat's next record, which was not set since the last publication.
fn set(t: &RunTable, s: &mut Seat, at: u32, field: u32, word: u64)
    requires seat { s.old.token.table_id ≡ t.now.table.shared.table_id }
    requires next { IsNext t.now.layout s.old.worker s.old.token.me.0 at }
    requires field { (0 < field) × (field < FIELDS) × MaySet t.now.layout field word }
    requires unset { (b : Stored) → In b s.old.token.me.0.region.built → b.field ≢ field }
    ensures seat { (s.new.token.table_id ≡ s.old.token.table_id)
        × (s.new.token.me.1 ≡ s.old.token.me.1) × (s.new.worker ≡ s.old.worker)
        × (s.new.word ≡ s.old.word) }
    ensures set { s.new.token.me.0 ≡ builds s.old.token.me.0 field word }
{
    let place = t.layout.field(at, field);
    t.table.shared.store::<Setting>(&mut s.token, place, word);
}

/// Sets the ints.
fn write_ints(t: &RunTable, s: &mut Seat, at: u32, ints: &[u64])
    requires seat { s.old.token.table_id ≡ t.now.table.shared.table_id }
    requires next { IsNext t.now.layout s.old.worker s.old.token.me.0 at }
    requires few { length ints.now ≤ 8 }
    requires clear { AreClear 5 s.old.token.me.0 }
    ensures seat { (s.new.token.table_id ≡ s.old.token.table_id)
        × (s.new.token.me.1 ≡ s.old.token.me.1) × (s.new.worker ≡ s.old.worker)
        × (s.new.word ≡ s.old.word) }
    ensures filled { HasFilled s.old.token.me.0 s.new.token.me.0 }
    ensures clear { AreClear 13 s.new.token.me.0 }
    ensures ints { (k n : ℕ) → get_elem? ints.now k ≡ some n
        → In (record { field = 5 + k; word = n }) s.new.token.me.0.region.built }
{
    for i in 0..ints.len() {
        set(t, s, at, FIRST_INT + i as u32, ints[i]);
    }
}

/// Sets the accesses.
fn write_accesses(t: &RunTable, s: &mut Seat, at: u32, accesses: &[Access])
    requires seat { s.old.token.table_id ≡ t.now.table.shared.table_id }
    requires next { IsNext t.now.layout s.old.worker s.old.token.me.0 at }
    requires few { length accesses.now ≤ 8 }
    requires fit { (k : ℕ) (a : Access) → get_elem? accesses.now k ≡ some a → IsAccess a
        × (a.hi ≤ t.now.layout.objects) }
    requires clear { AreClear 13 s.old.token.me.0 }
    ensures seat { (s.new.token.table_id ≡ s.old.token.table_id)
        × (s.new.token.me.1 ≡ s.old.token.me.1) × (s.new.worker ≡ s.old.worker)
        × (s.new.word ≡ s.old.word) }
    ensures filled { HasFilled s.old.token.me.0 s.new.token.me.0 }
    ensures accesses { (k : ℕ) (a : Access) → get_elem? accesses.now k ≡ some a
        → In (record { field = 13 + k; word = packed_access a }) s.new.token.me.0.region.built }
{
    for i in 0..accesses.len() {
        set(t, s, at, FIRST_ACCESS + i as u32, pack_access(&accesses[i]));
    }
}

/// Sets all fields of the next record but the state word.
pub(crate) fn write_fields(
    t: &RunTable,
    s: &mut Seat,
    parent: u32,
    at: u32,
    number: u32,
    child: &Call,
)
    requires seat { s.old.token.table_id ≡ t.now.table.shared.table_id }
    requires next { IsNext t.now.layout s.old.worker s.old.token.me.0 at }
    requires fits { IsWritable t.now.layout number child.now }
    requires clear { AreClear 1 s.old.token.me.0 }
    ensures seat { (s.new.token.table_id ≡ s.old.token.table_id)
        × (s.new.token.me.1 ≡ s.old.token.me.1) × (s.new.worker ≡ s.old.worker)
        × (s.new.word ≡ s.old.word) }
    ensures written { HasWritten s.old.token.me.0 parent number child.now s.new.token.me.0 }
    ensures few { (length child.now.ints ≤ INTS) × (length child.now.accesses ≤ ACCESSES) }
{
    let ints = child.ints.as_slice();
    let accesses = child.accesses.as_slice();
    let head = pack_head(&HeadWord {
        task: child.task,
        depth: child.depth,
        number,
        ints: ints.len() as u32,
        accesses: accesses.len() as u32,
    });
    let extent = pack_pair(&Pair {
        low: child.length,
        high: 0,
    });
    set(t, s, at, HEAD, head);
    set(t, s, at, PARENT, u64::from(parent) + 1);
    set(t, s, at, EXTENT, extent);
    set(t, s, at, UNRETIRED, u64::from(child.length));
    write_ints(t, s, at, ints);
    write_accesses(t, s, at, accesses);
}

/// Stores the state word of the next record, all of whose other fields are set.
pub(crate) fn announce<B: Berthed>(
    t: &RunTable,
    s: &mut Seat,
    parent: u32,
    at: u32,
    frame: u64,
    fork: u32,
    number: u32,
    child: &Call,
)
    requires seat { s.old.token.table_id ≡ t.now.table.shared.table_id }
    requires next { IsNext t.now.layout s.old.worker s.old.token.me.0 at }
    requires berth { B.berth ≡ berth_of parent at frame fork child.now number }
    requires may { MayAnnounce s.old.token.me.0 (berth_of parent at frame fork child.now number) }
    ensures seat { (s.new.token.table_id ≡ s.old.token.table_id)
        × (s.new.token.me.1 ≡ s.old.token.me.1) × (s.new.worker ≡ s.old.worker)
        × (s.new.word ≡ s.old.word) }
    ensures published { (e : Execution) (rest : List Execution)
        → s.old.token.me.0.tasks.running ≡ e ∷ rest
        → s.new.token.me.0
        ≡ published s.old.token.me.0 e rest (berth_of parent at frame fork child.now number) }
{
    let place = t.layout.field(at, STATE);
    let word = pack_state(&StateWord {
        frame,
        fork,
        stand: Stand::Unclaimed,
    });
    t.table
        .shared
        .store::<Announcing<B>>(&mut s.token, place, word);
}
