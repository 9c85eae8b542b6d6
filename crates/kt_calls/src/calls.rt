// The calls of a seat at the table of a run.
ghost use Rattle.std.specs.Prelude.{◌≡◌, ◌<◌, ◌≤◌, ◌∷◌, [], List, Some, false, true, if◌then◌else◌};
ghost use Rattle.kt_law.specs.Acts.{Fold, Load, Store};
ghost use Rattle.kt_prog.specs.Objects.{objects_of};
ghost use Rattle.kt_ready.specs.Contents.{HasRoomOf};
ghost use Rattle.kt_rule.specs.Steps.{BeforeKnown, knows_stop, stands, starts};
ghost use Rattle.kt_rule.specs.declared.views.Execution.{Execution};
ghost use Rattle.kt_rule.specs.declared.views.Setup.{Setup};
ghost use Rattle.kt_rule.specs.declared.views.Spot.{Spot};
ghost use Rattle.kt_rule.specs.declared.views.View.{View};
ghost use Rattle.kt_steps.specs.Told.{IsMine};
ghost use Rattle.kt_loops.specs.Calls.{HasBegun, HasHeld, HasLeft, HasRetired, HasTaken, MayBegin, MayHold, MayRetire, RunsLoop};
ghost use Rattle.kt_loops.specs.Operations.{DidOne, IsNextOn, MayFinish, finishes};
ghost use Rattle.kt_loops.specs.Told.{IsExtent};
ghost use Rattle.kt_words.specs.Words.{IsPost, IsStateWord, packed_state};
ghost use Rattle.kt_words.specs.declared.layouts.TheConstants.{RECORDS};
ghost use Rattle.kt_words.specs.declared.posts.Post.{Post};
ghost use Rattle.kt_posts.specs.Answered.{Led, Settled, Withdrew};
ghost use Rattle.kt_tasks.specs.Claims.{Claimed};
ghost use Rattle.kt_posts.specs.Desks.{posts};
ghost use Rattle.kt_tasks.specs.Claims.{AreFew};
ghost use Rattle.kt_tasks.specs.Climbs.{HasClimbed};
ghost use Rattle.kt_tasks.specs.Hands.{IsCallIn, IsHeld, IsNumberIn, IsPathIn};
ghost use Rattle.kt_tasks.specs.Publications.{HasPublished, MayPublish};
ghost use Rattle.kt_calls.specs.Ranges.{IsElementOf, IsOfCrew, IsRecord, IsWorker};
ghost use Rattle.kt_calls.specs.Serving.{Serves};
ghost use Rattle.kt_posts.specs.declared.answers.Answer.TheVariants as A;

use arrayvec::ArrayVec;
use kt_law::Op;
use kt_loops::{Begun, Taken};
use kt_posts::{Answer, Lead};
use kt_prog::{Call, PATH};
use kt_ready::Scan;
use kt_tasks::{Claim, Published};
use kt_words::{Pair, StateWord};

/// A seat with its table. No call takes memory, and none waits.
pub trait Run {
    /// What the seat knows.
    ghost view: { Self → View };

    /// The seat's worker.
    fn worker(&self) -> u32
        ensures { result ≡ (view self.now).worker };

    /// How many workers the run has.
    fn workers(&self) -> u32
        ensures { (j : Setup) → (view self.now).setup ≡ Some j → result ≡ j.workers };

    /// Loads an element for the index that the seat runs, or else for the running body; as `store` and `fold` do.
    fn load(&mut self, element: u32) -> u64
        requires inside { IsElementOf (view self.old) element }
        requires next { IsNextOn (view self.old) element Load }
        ensures loaded { DidOne (view self.old) result (view self.new) };

    fn store(&mut self, element: u32, value: u64)
        requires inside { IsElementOf (view self.old) element }
        requires next { IsNextOn (view self.old) element (Store value) }
        ensures stored { DidOne (view self.old) value (view self.new) };

    fn fold(&mut self, element: u32, op: Op, value: u64)
        requires inside { IsElementOf (view self.old) element }
        requires next { IsNextOn (view self.old) element (Fold op value) }
        ensures folded { (found : _) × DidOne (view self.old) found (view self.new) };

    /// Publishes the child that the running body, whose task lies in the record `parent`, forks next, in the record `at`.
    fn publish(&mut self, parent: u32, at: u32, frame: u64, fork: u32, child: &Call) -> Published
        requires crew { IsOfCrew (view self.old) }
        requires inside { IsRecord (view self.old) parent }
        requires may { MayPublish (view self.old) parent at frame fork child.now }
        ensures published { HasPublished (view self.old) parent at frame fork child.now
            (view self.new) result };

    /// Claims a record of the seat's own region. A lost claim is a look at it.
    fn claim_own(&mut self, at: u32) -> Claim
        requires crew { IsOfCrew (view self.old) }
        requires inside { IsRecord (view self.old) at }
        requires mine { (m : Spot) × IsMine (view self.old) at m
            × BeforeKnown (view self.old) m.path }
        ensures claimed { Claimed (view self.old) at (view self.new) result }
        ensures few { AreFew (view self.new) };

    /// Starts the first task that the seat was given.
    fn start(&mut self, at: u32)
        requires crew { IsOfCrew (view self.old) }
        requires inside { IsRecord (view self.old) at }
        requires given { (m : Spot) × (rest : List Spot) × ((view self.old).tasks.given ≡ m ∷ rest)
            × (m.berth.at ≡ at) }
        ensures started { (m : Spot) (rest : List Spot) → (view self.old).tasks.given ≡ m ∷ rest
            → view self.new ≡ starts (view self.old) m rest }
        ensures few { AreFew (view self.new) };

    /// Finishes the task of the running body.
    fn finish(&mut self, at: u32)
        requires inside { IsRecord (view self.old) at }
        requires ended { MayFinish (view self.old) at }
        ensures finished { (e : Execution) (rest : List Execution)
            → (view self.old).tasks.running ≡ e ∷ rest
            → view self.new ≡ finishes (view self.old) e rest };

    /// Begins the loop of the running body, whose zeroing is done: all its positions are the own interval.
    fn begin_loop(&mut self, at: u32) -> Begun
        requires crew { IsOfCrew (view self.old) }
        requires inside { IsRecord (view self.old) at }
        requires may { MayBegin (view self.old) at }
        ensures begun { HasBegun (view self.old) at (view self.new) result };

    /// Makes a piece in hand, of the loop in the record `at`, the own interval.
    fn take_piece(&mut self, at: u32, piece: Pair)
        requires crew { IsOfCrew (view self.old) }
        requires inside { IsRecord (view self.old) at }
        requires may { MayHold (view self.old) at piece }
        ensures held { HasHeld (view self.old) at piece (view self.new) };

    /// Takes at most `grain` positions from the front of the own interval: they are indexes in hand.
    fn chunk(&mut self, grain: u32) -> Taken
        requires crew { IsOfCrew (view self.old) }
        requires some { 1 ≤ grain }
        ensures taken { HasTaken (view self.old) grain (view self.new) result };

    /// Retires the first `count` of the indexes in hand, of the loop in the record `at`: how many of the loop are left.
    fn retire(&mut self, at: u32, count: u32) -> u32
        requires inside { IsRecord (view self.old) at }
        requires may { MayRetire (view self.old) at count }
        ensures retired { HasRetired (view self.old) at count (view self.new) result };

    /// How many indexes of the loop of the running body are left.
    fn left(&mut self, at: u32) -> u32
        requires inside { IsRecord (view self.old) at }
        requires runs { RunsLoop (view self.old) at }
        ensures left { HasLeft (view self.old) (view self.new) result };

    /// The first position of a loop in hand.
    fn first_of(&mut self, at: u32) -> u32
        requires inside { IsRecord (view self.old) at }
        ensures same { view self.new ≡ view self.old }
        ensures first { (long : _) × IsExtent (view self.old) at long result };

    /// Looks at a record's state.
    fn stand(&mut self, at: u32) -> StateWord
        requires inside { IsRecord (view self.old) at }
        ensures state { IsStateWord result }
        ensures looked { view self.new ≡ stands (view self.old) at (packed_state result) };

    /// Whether the run stops.
    fn stopped(&mut self) -> bool
        ensures known { view self.new
            ≡ (if result then knows_stop (view self.old) else (view self.old)) };

    /// The call of a task in hand.
    fn call_of(&mut self, at: u32) -> Call
        requires inside { IsRecord (view self.old) at }
        requires held { (m : Spot) × IsHeld (view self.old) at m }
        ensures same { view self.new ≡ view self.old }
        ensures call { IsCallIn (view self.old) at result };

    /// The number that was drawn for a task in hand.
    fn number_of(&mut self, at: u32) -> u32
        requires inside { IsRecord (view self.old) at }
        requires held { (m : Spot) × IsHeld (view self.old) at m }
        ensures same { view self.new ≡ view self.old }
        ensures number { IsNumberIn (view self.old) at result };

    /// The path of a task in hand.
    fn path_of(&mut self, at: u32) -> ArrayVec<u32, PATH>
        requires inside { IsRecord (view self.old) at }
        requires held { (m : Spot) × IsHeld (view self.old) at m }
        ensures climbed { HasClimbed (view self.old) (view self.new) }
        ensures path { IsPathIn (view self.old) at result.items };

    /// Asks a victim for work, which may be the seat's own worker.
    fn post(&mut self, victim: u32)
        requires crew { IsOfCrew (view self.old) }
        requires victim { IsWorker (view self.old) victim }
        requires idle { (view self.old).desk.free ≡ true }
        ensures posted { view self.new ≡ posts (view self.old) victim };

    /// Tries to lead the requests at a victim.
    fn lead(&mut self, victim: u32) -> Lead
        requires victim { IsWorker (view self.old) victim }
        requires leads_none { (view self.old).desk.leads ≡ false }
        ensures led { (workers : _) × Led workers victim (view self.old) (view self.new) result };

    /// Answers those that ask at the victim whose requests the seat leads, and gives up the lead.
    fn serve(&mut self, victim: u32, scan: &mut Scan)
        requires crew { IsOfCrew (view self.old) }
        requires victim { IsWorker (view self.old) victim }
        requires leads { ((view self.old).desk.leads ≡ true)
            × ((view self.old).desk.victim ≡ victim) }
        requires none { ((view self.old).desk.held ≡ []) × ((view self.old).tasks.promised ≡ []) }
        requires objects { (j : Setup) → (view self.old).setup ≡ Some j
            → objects_of j.program.families ≤ scan.old.objects }
        requires entries { RECORDS ≤ scan.old.entries }
        ensures served { Serves (view self.old) (view self.new) }
        ensures room { HasRoomOf scan.old scan.new };

    /// Looks at the own post. An answer is taken from it.
    fn look(&mut self) -> Answer
        requires crew { IsOfCrew (view self.old) }
        requires busy { (view self.old).desk.free ≡ false }
        ensures looked { (o : Post) × IsPost o × Settled o (view self.old) (view self.new) result }
        ensures inside { (at : _) → result ≡ A.Task at → IsRecord (view self.old) at }
        ensures piece_inside { (at : _) (piece : _) → result ≡ A.Piece at piece
            → IsRecord (view self.old) at };

    /// Takes the request back where nobody holds it, and else looks.
    fn withdraw(&mut self) -> Answer
        requires crew { IsOfCrew (view self.old) }
        requires busy { (view self.old).desk.free ≡ false }
        ensures withdrew { (o : Post) × IsPost o
            × Withdrew o (view self.old) (view self.new) result }
        ensures inside { (at : _) → result ≡ A.Task at → IsRecord (view self.old) at }
        ensures piece_inside { (at : _) (piece : _) → result ≡ A.Piece at piece
            → IsRecord (view self.old) at };
}
