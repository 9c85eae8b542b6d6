//! Claims, starts and finishes.
//!
//! A claim is a fetch-and-compare: several workers may try it, and the state
//! word decides. Where it decides against the owner of the record, the exchange
//! has loaded the word and changed nothing, so it is a look at the record. A
//! start and a finish are stores: the task is one worker's by then, and nobody
//! else may write its state. They load the word first, for the frame and the
//! fork that it keeps; a claim for a thief has noted it.
ghost use Rattle.std.specs.Prelude.{◌≡◌, ◌≢◌, ℕ, ◌*◌, ◌<◌, [], ◌∷◌, List};
ghost use mathlib.Core.Option.{some};
ghost use lib.ListN.{get_elem?};
ghost use Rattle.kt_law.specs.declared.stands.Stand.TheVariants as S;
ghost use Rattle.kt_loops.specs.Operations.{FinishesAt, MayFinish, finishes};
ghost use Rattle.kt_order.specs.Body.{Stop};
ghost use Rattle.kt_order.specs.Rest.{left};
ghost use Rattle.kt_prog.specs.Reference.{machine_of};
ghost use Rattle.kt_runs.specs.ByPath.{child};
ghost use Rattle.kt_rule.specs.Facts.{task_in};
ghost use Rattle.kt_rule.specs.Lists.{In};
ghost use Rattle.kt_rule.specs.Steps.{BeforeKnown, Tells, starts, won_own};
ghost use Rattle.kt_rule.specs.declared.views.Execution.{Execution};
ghost use Rattle.kt_rule.specs.declared.views.Spot.{Spot};
ghost use Rattle.kt_steps.specs.Told.{IsLiveOf, IsMine, IsNotedReady, ShowsGiven, ShowsOwn, ShowsRunning};
ghost use Rattle.kt_tasks.specs.declared.states.Claim.TheVariants as C;
ghost use Rattle.kt_tasks.specs.Claims.{AreFew, Claimed, ClaimedFor, ClaimsForFound, ClaimsOwnFew, StartsFew};
ghost use Rattle.kt_words.specs.Words.{IsStateWord, packed_state};
ghost use Rattle.kt_words.specs.declared.layouts.TheConstants.{RECORDS};

use crate::states::{Claim, Offer, state_in};
use atomic_table::Play;
use kt_law::Stand;
use kt_rule::{RunTable, Seat, View};
use kt_words::fields::STATE;
use kt_words::{StateWord, pack_state};

struct LookingOwn;

impl Play<(), View> for LookingOwn {
    ghost then = { Tells ShowsOwn };
}

struct ClaimingOwn;

impl Play<(), View> for ClaimingOwn {
    ghost then = { Tells ClaimsOwnFew };
}

struct ClaimingFor;

impl Play<(), View> for ClaimingFor {
    ghost then = { Tells ClaimsForFound };
}

struct LookingGiven;

impl Play<(), View> for LookingGiven {
    ghost then = { Tells ShowsGiven };
}

struct Starting;

impl Play<(), View> for Starting {
    ghost then = { Tells StartsFew };
}

struct LookingRunning;

impl Play<(), View> for LookingRunning {
    ghost then = { Tells ShowsRunning };
}

struct Finishing;

impl Play<(), View> for Finishing {
    ghost then = { Tells FinishesAt };
}

/// Finishes the task of the running body: one that is at its end or at a fault, and whose children the seat knows finished; or a loop
/// that has begun and of which nothing is left.
pub fn finish(t: &RunTable, s: &mut Seat, at: u32)
    requires seat { s.old.token.table_id ≡ t.now.table.shared.table_id }
    requires live { IsLiveOf t.now.layout s.old.worker s.old.token.me.0 }
    requires inside { at < RECORDS * t.now.layout.workers }
    requires ended { MayFinish s.old.token.me.0 at }
    ensures seat { (s.new.token.table_id ≡ s.old.token.table_id)
        × (s.new.token.me.1 ≡ s.old.token.me.1) × (s.new.worker ≡ s.old.worker)
        × (s.new.word ≡ s.old.word) }
    ensures finished { (e : Execution) (rest : List Execution)
        → s.old.token.me.0.tasks.running ≡ e ∷ rest
        → s.new.token.me.0 ≡ finishes s.old.token.me.0 e rest }
{
    let place = t.layout.field(at, STATE);
    let found = t.table.shared.load::<LookingRunning>(&mut s.token, place);
    let state = state_in(found);
    let new = pack_state(&StateWord {
        frame: state.frame,
        fork: state.fork,
        stand: Stand::Finished,
    });
    t.table.shared.store::<Finishing>(&mut s.token, place, new);
}

/// Starts the first task that the seat was given, which a leader claimed for it.
pub fn start(t: &RunTable, s: &mut Seat, at: u32)
    requires seat { s.old.token.table_id ≡ t.now.table.shared.table_id }
    requires live { IsLiveOf t.now.layout s.old.worker s.old.token.me.0 }
    requires inside { (at < RECORDS * t.now.layout.workers) × (s.old.worker < 8) }
    requires given { (m : Spot) × (rest : List Spot) × (s.old.token.me.0.tasks.given ≡ m ∷ rest)
        × (m.berth.at ≡ at) }
    ensures seat { (s.new.token.table_id ≡ s.old.token.table_id)
        × (s.new.token.me.1 ≡ s.old.token.me.1) × (s.new.worker ≡ s.old.worker)
        × (s.new.word ≡ s.old.word) }
    ensures started { (m : Spot) (rest : List Spot) → s.old.token.me.0.tasks.given ≡ m ∷ rest
        → s.new.token.me.0 ≡ starts s.old.token.me.0 m rest }
    ensures few { AreFew s.new.token.me.0 }
{
    let place = t.layout.field(at, STATE);
    let found = t.table.shared.load::<LookingGiven>(&mut s.token, place);
    let state = state_in(found);
    let new = pack_state(&StateWord {
        frame: state.frame,
        fork: state.fork,
        stand: Stand::Running(s.worker),
    });
    t.table.shared.store::<Starting>(&mut s.token, place, new);
}

/// Claims for a thief the entry that the seat noted last, where its notes say that it is ready. It is won just where the record's
/// word is still the one that was noted; so it does not matter when the notes were made.
pub fn claim_for(t: &RunTable, s: &mut Seat, at: u32, state: StateWord, thief: u32) -> Offer
    requires seat { s.old.token.table_id ≡ t.now.table.shared.table_id }
    requires live { IsLiveOf t.now.layout s.old.worker s.old.token.me.0 }
    requires inside { (at < RECORDS * t.now.layout.workers) × (thief < t.now.layout.workers)
        × (thief < 8) }
    requires noted { IsNotedReady s.old.token.me.0 at state }
    ensures seat { (s.new.token.table_id ≡ s.old.token.table_id)
        × (s.new.token.me.1 ≡ s.old.token.me.1) × (s.new.worker ≡ s.old.worker)
        × (s.new.word ≡ s.old.word) }
    ensures claimed { ClaimedFor s.old.token.me.0 at state thief s.new.token.me.0 result }
{
    let place = t.layout.field(at, STATE);
    let old = pack_state(&state);
    let new = pack_state(&StateWord {
        frame: state.frame,
        fork: state.fork,
        stand: Stand::Given(thief),
    });
    let word = t
        .table
        .shared
        .compare_exchange::<ClaimingFor>(&mut s.token, place, old, new);
    if word == old {
        return Offer::Won;
    }
    Offer::Lost(word)
}

/// Claims a record of the seat's own region, all earlier entries of whose frame it knows finished. Where it is lost, the view is the one
/// after a `stand` that found the word of the exchange; the seat's `word` stays.
pub fn claim_own(t: &RunTable, s: &mut Seat, at: u32) -> Claim
    requires seat { s.old.token.table_id ≡ t.now.table.shared.table_id }
    requires live { IsLiveOf t.now.layout s.old.worker s.old.token.me.0 }
    requires inside { (at < RECORDS * t.now.layout.workers) × (s.old.worker < 8) }
    requires mine { (m : Spot) × IsMine s.old.token.me.0 at m
        × BeforeKnown s.old.token.me.0 m.path }
    ensures seat { (s.new.token.table_id ≡ s.old.token.table_id)
        × (s.new.token.me.1 ≡ s.old.token.me.1) × (s.new.worker ≡ s.old.worker)
        × (s.new.word ≡ s.old.word) }
    ensures claimed { Claimed s.old.token.me.0 at s.new.token.me.0 result }
    ensures few { AreFew s.new.token.me.0 }
{
    let place = t.layout.field(at, STATE);
    let found = t.table.shared.load::<LookingOwn>(&mut s.token, place);
    let state = state_in(found);
    let old = pack_state(&StateWord {
        frame: state.frame,
        fork: state.fork,
        stand: Stand::Unclaimed,
    });
    let new = pack_state(&StateWord {
        frame: state.frame,
        fork: state.fork,
        stand: Stand::Running(s.worker),
    });
    let word = t
        .table
        .shared
        .compare_exchange::<ClaimingOwn>(&mut s.token, place, old, new);
    if word == old {
        return Claim::Won;
    }
    Claim::Stolen(state_in(word).stand)
}
