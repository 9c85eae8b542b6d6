//! What the records of the tasks in hand say of them. It stays so for as long as
//! the seat has them.
ghost use Rattle.std.specs.Prelude.{◌≡◌, ℕ, suc, ◌+◌, ◌*◌, ◌<◌, ◌≤◌, length};
ghost use mathlib.Core.Option.{some};
ghost use lib.ListN.{get_elem?};
ghost use Rattle.kt_rule.specs.Records.{head_of};
ghost use Rattle.kt_rule.specs.Steps.{Tells, new_lie};
ghost use Rattle.kt_rule.specs.declared.views.Spot.{Spot};
ghost use Rattle.kt_steps.specs.Told.{IsLiveOf};
ghost use Rattle.kt_tasks.specs.Hands.{AreFitting, HasFields, IsCallIn, IsHeld, IsNumberIn, LooksHeld};
ghost use Rattle.kt_words.specs.declared.layouts.TheConstants.{FIELDS, RECORDS};

use arrayvec::ArrayVec;
use atomic_table::Play;
use kt_law::{ACCESSES, Access, INTS};
use kt_prog::Call;
use kt_rule::{RunTable, Seat, View};
use kt_words::fields::{EXTENT, FIRST_ACCESS, FIRST_INT, HEAD};
use kt_words::{HeadWord, unpack_access, unpack_head, unpack_pair};

struct Looking;

impl Play<(), View> for Looking {
    ghost then = { Tells LooksHeld };
}

/// A field of the record of a task in hand.
fn field(t: &RunTable, s: &mut Seat, at: u32, field: u32) -> u64
    requires seat { s.old.token.table_id ≡ t.now.table.shared.table_id }
    requires live { IsLiveOf t.now.layout s.old.worker s.old.token.me.0 }
    requires inside { (at < RECORDS * t.now.layout.workers) × (field < FIELDS) }
    ensures seat { (s.new.token.table_id ≡ s.old.token.table_id) × (s.new.token.me ≡ s.old.token.me)
        × (s.new.worker ≡ s.old.worker) × (s.new.word ≡ s.old.word) }
    ensures field { HasFields s.old.token.me.0 at field result }
{
    t.table
        .shared
        .load::<Looking>(&mut s.token, t.layout.field(at, field))
}

/// The head word.
fn head(t: &RunTable, s: &mut Seat, at: u32) -> HeadWord
    requires seat { s.old.token.table_id ≡ t.now.table.shared.table_id }
    requires live { IsLiveOf t.now.layout s.old.worker s.old.token.me.0 }
    requires inside { at < RECORDS * t.now.layout.workers }
    requires held { (m : Spot) × IsHeld s.old.token.me.0 at m }
    ensures seat { (s.new.token.table_id ≡ s.old.token.table_id) × (s.new.token.me ≡ s.old.token.me)
        × (s.new.worker ≡ s.old.worker) × (s.new.word ≡ s.old.word) }
    ensures head { (m : Spot) → IsHeld s.old.token.me.0 at m → result ≡ head_of (new_lie m.berth) }
    ensures few { (result.ints ≤ INTS) × (result.accesses ≤ ACCESSES) }
    ensures fits { AreFitting s.old.token.me.0 }
{
    match unpack_head(field(t, s, at, HEAD)) {
        Some(head) => head,
        None => unreachable!(),
    }
}

/// The length of the loop, 0 for all others.
fn length(t: &RunTable, s: &mut Seat, at: u32) -> u32
    requires seat { s.old.token.table_id ≡ t.now.table.shared.table_id }
    requires live { IsLiveOf t.now.layout s.old.worker s.old.token.me.0 }
    requires inside { at < RECORDS * t.now.layout.workers }
    ensures seat { (s.new.token.table_id ≡ s.old.token.table_id) × (s.new.token.me ≡ s.old.token.me)
        × (s.new.worker ≡ s.old.worker) × (s.new.word ≡ s.old.word) }
    ensures length { (m : Spot) → IsHeld s.old.token.me.0 at m → result ≡ m.berth.call.length }
{
    match unpack_pair(field(t, s, at, EXTENT)) {
        Some(extent) => extent.low,
        None => unreachable!(),
    }
}

/// The ints, of which there are so many.
fn ints(t: &RunTable, s: &mut Seat, at: u32, count: u32) -> ArrayVec<u64, INTS>
    requires seat { s.old.token.table_id ≡ t.now.table.shared.table_id }
    requires live { IsLiveOf t.now.layout s.old.worker s.old.token.me.0 }
    requires inside { (at < RECORDS * t.now.layout.workers) × (count ≤ INTS) }
    requires count { (m : Spot) → IsHeld s.old.token.me.0 at m → count ≡ length m.berth.call.ints }
    ensures seat { (s.new.token.table_id ≡ s.old.token.table_id) × (s.new.token.me ≡ s.old.token.me)
        × (s.new.worker ≡ s.old.worker) × (s.new.word ≡ s.old.word) }
    ensures ints { (m : Spot) → IsHeld s.old.token.me.0 at m → result.items ≡ m.berth.call.ints }
{
    let mut ints = ArrayVec::new();
    for i in 0..count {
        ints.push(field(t, s, at, FIRST_INT + i));
    }
    ints
}

/// An access, by its number among those of the call.
fn access(t: &RunTable, s: &mut Seat, at: u32, number: u32) -> Access
    requires seat { s.old.token.table_id ≡ t.now.table.shared.table_id }
    requires live { IsLiveOf t.now.layout s.old.worker s.old.token.me.0 }
    requires inside { (at < RECORDS * t.now.layout.workers) × (number < ACCESSES) }
    requires there { (m : Spot) × IsHeld s.old.token.me.0 at m
        × (number < length m.berth.call.accesses) }
    ensures seat { (s.new.token.table_id ≡ s.old.token.table_id) × (s.new.token.me ≡ s.old.token.me)
        × (s.new.worker ≡ s.old.worker) × (s.new.word ≡ s.old.word) }
    ensures access { (m : Spot) → IsHeld s.old.token.me.0 at m
        → number < length m.berth.call.accesses
        → get_elem? m.berth.call.accesses number ≡ some result }
{
    match unpack_access(field(t, s, at, FIRST_ACCESS + number)) {
        Some(access) => access,
        None => unreachable!(),
    }
}

/// The accesses, of which there are so many.
fn accesses(t: &RunTable, s: &mut Seat, at: u32, count: u32) -> ArrayVec<Access, ACCESSES>
    requires seat { s.old.token.table_id ≡ t.now.table.shared.table_id }
    requires live { IsLiveOf t.now.layout s.old.worker s.old.token.me.0 }
    requires inside { (at < RECORDS * t.now.layout.workers) × (count ≤ ACCESSES) }
    requires held { (m : Spot) × IsHeld s.old.token.me.0 at m }
    requires count { (m : Spot) → IsHeld s.old.token.me.0 at m
        → count ≡ length m.berth.call.accesses }
    ensures seat { (s.new.token.table_id ≡ s.old.token.table_id) × (s.new.token.me ≡ s.old.token.me)
        × (s.new.worker ≡ s.old.worker) × (s.new.word ≡ s.old.word) }
    ensures accesses { (m : Spot) → IsHeld s.old.token.me.0 at m
        → result.items ≡ m.berth.call.accesses }
{
    let mut accesses = ArrayVec::new();
    for i in 0..count {
        accesses.push(access(t, s, at, i));
    }
    accesses
}

/// The call of a task in hand. It fits the program of the run.
pub fn call_of(t: &RunTable, s: &mut Seat, at: u32) -> Call
    requires seat { s.old.token.table_id ≡ t.now.table.shared.table_id }
    requires live { IsLiveOf t.now.layout s.old.worker s.old.token.me.0 }
    requires inside { at < RECORDS * t.now.layout.workers }
    requires held { (m : Spot) × IsHeld s.old.token.me.0 at m }
    ensures seat { (s.new.token.table_id ≡ s.old.token.table_id) × (s.new.token.me ≡ s.old.token.me)
        × (s.new.worker ≡ s.old.worker) × (s.new.word ≡ s.old.word) }
    ensures call { IsCallIn s.old.token.me.0 at result }
{
    let head = head(t, s, at);
    let length = length(t, s, at);
    let ints = ints(t, s, at, head.ints);
    let accesses = accesses(t, s, at, head.accesses);
    Call {
        task: head.task,
        depth: head.depth,
        length,
        ints,
        accesses,
    }
}

/// The number that was drawn for a task in hand.
pub fn number_of(t: &RunTable, s: &mut Seat, at: u32) -> u32
    requires seat { s.old.token.table_id ≡ t.now.table.shared.table_id }
    requires live { IsLiveOf t.now.layout s.old.worker s.old.token.me.0 }
    requires inside { at < RECORDS * t.now.layout.workers }
    requires held { (m : Spot) × IsHeld s.old.token.me.0 at m }
    ensures seat { (s.new.token.table_id ≡ s.old.token.table_id) × (s.new.token.me ≡ s.old.token.me)
        × (s.new.worker ≡ s.old.worker) × (s.new.word ≡ s.old.word) }
    ensures number { IsNumberIn s.old.token.me.0 at result }
{
    head(t, s, at).number
}
