// A seat with its table that keeps what its calls answered.
ghost use Rattle.std.specs.Prelude.{◌≡◌, ◌≤◌, ℕ, List, [], Some, true};
ghost use Rattle.kt_prog.specs.Objects.{objects_of};
ghost use Rattle.kt_ready.specs.Contents.{HasRoomOf};
ghost use Rattle.kt_rule.specs.declared.views.Setup.{Setup};
ghost use Rattle.kt_words.specs.declared.layouts.TheConstants.{RECORDS};
ghost use Rattle.kt_calls.specs.Ranges.{IsOfCrew, IsRecord, IsWorker};
ghost use Rattle.kt_calls.specs.Serving.{Serves};
ghost use Rattle.kt_law.specs.declared.accesses.Access.{Access};
ghost use Rattle.kt_loops.specs.Calls.{HasSplit};
ghost use Rattle.kt_rule.specs.Steps.{with_note};
ghost use Rattle.kt_rule.specs.declared.views.Note.{Note};
ghost use Rattle.kt_steps.specs.Told.{IsNotedReady};
ghost use Rattle.kt_tasks.specs.Accesses.{IsLookedAt, found_of};
ghost use Rattle.kt_tasks.specs.Claims.{ClaimedFor};

use arrayvec::ArrayVec;
use kt_calls::{Answer, Begun, Claim, Lead, Published, Run, Taken};
use kt_hands::{Hand, Home};
use kt_law::Op;
use kt_loops::Divided;
use kt_prog::{Call, PATH};
use kt_ready::Scan;
use kt_request::Served;
use kt_tasks::Offer;
use kt_words::{Pair, StateWord};

/// How many events are kept.
pub const KEPT: usize = 24;

/// What a call did or answered.
#[derive(Clone, Copy, Debug, PartialEq, Eq)]
pub enum Event {
    /// Nothing: there is no event here.
    Nothing,
    Claimed(u32, Claim),
    Forked(Published),
    Loaded(u32, u64),
    Stored(u32, u64),
    Folded(u32, u64),
    Started(u32),
    Finished(u32),
    /// A record's state word.
    Found(u32, u64),
    Posted(u32),
    Led(Lead),
    /// A thief that a serve held, and what it was answered.
    Gave(u32, Answer),
    Looked(Answer),
    /// A claim for a thief, outside of a serve.
    Offered(u32, Offer),
    Began(Begun),
    /// A piece that was split off, of the loop in this record.
    Cut(u32, Pair),
    /// The piece that became the own interval, of the loop in this record.
    Held(u32, Pair),
    Took(Taken),
    /// Indexes were retired, and so many of the loop were left.
    Retired(u32),
    /// So many indexes of the own loop were left.
    Left(u32),
}

impl Default for Event {
    fn default() -> Event {
        Event::Nothing
    }
}

/// The events of one seat, in their order.
pub type Log = ArrayVec<Event, KEPT>;

/// Keeps an event, if there is room.
pub fn keep(log: &mut Log, event: Event) {
    if !log.is_full() {
        log.push(event);
    }
}

/// Keeps the pieces that a split cut off.
pub fn keep_cut(log: &mut Log, cut: &Divided) {
    if let Divided::Got(at, pieces) = cut {
        for piece in pieces.as_slice() {
            keep(log, Event::Cut(*at, *piece));
        }
    }
}

// Keeps whom a serve held, its answers, and the pieces that it cut off.
fn keep_served(log: &mut Log, served: &Served) {
    let answers = served.answers.as_slice();
    for (thief, answer) in served.held.as_slice().iter().zip(answers.iter()) {
        keep(log, Event::Gave(*thief, *answer));
    }
    if let Some(cut) = &served.cut {
        keep_cut(log, cut);
    }
}

/// A seat with its table, and its events.
pub struct Recorder<'t, H: Home> {
    pub hand: Hand<'t, H>,
    pub log: Log,
}

/// Notes the accesses of the record that was looked at last.
pub fn note_accesses<'t, H: Home>(hand: &mut Hand<'t, H>, at: u32)
    requires inside { IsRecord hand.old.seat.token.me.0 at }
    requires looked { (word : ℕ) × (ns : List Note)
        × IsLookedAt hand.old.seat.token.me.0 at word ns }
    ensures found { (word : ℕ) (ns : List Note) → IsLookedAt hand.old.seat.token.me.0 at word ns
        → (xs : List Access)
        × (hand.new.seat.token.me.0
        ≡ with_note hand.old.seat.token.me.0 (found_of at word xs) ns) }
{
    kt_tasks::accesses_of(hand.table, &mut hand.seat, at);
}

/// Claims for a thief the entry that was noted last.
pub fn offer<'t, H: Home>(hand: &mut Hand<'t, H>, at: u32, state: StateWord, thief: u32) -> Offer
    requires crew { IsOfCrew hand.old.seat.token.me.0 }
    requires inside { IsRecord hand.old.seat.token.me.0 at }
    requires thief { IsWorker hand.old.seat.token.me.0 thief }
    requires noted { IsNotedReady hand.old.seat.token.me.0 at state }
    ensures claimed { ClaimedFor hand.old.seat.token.me.0 at state thief hand.new.seat.token.me.0
        result }
{
    kt_tasks::claim_for(hand.table, &mut hand.seat, at, state, thief)
}

/// Splits the interval of a worker for the seat alone.
pub fn split<'t, H: Home>(hand: &mut Hand<'t, H>, victim: u32) -> Divided
    requires crew { IsOfCrew hand.old.seat.token.me.0 }
    requires victim { IsWorker hand.old.seat.token.me.0 victim }
    ensures split { HasSplit victim hand.old.seat.token.me.0 1 hand.new.seat.token.me.0 result }
{
    kt_loops::split(hand.table, &mut hand.seat, victim, 1)
}

// Serves, and tells whom.
fn serve_all<'t, H: Home>(hand: &mut Hand<'t, H>, victim: u32, scan: &mut Scan) -> Served
    requires crew { IsOfCrew hand.old.seat.token.me.0 }
    requires victim { IsWorker hand.old.seat.token.me.0 victim }
    requires leads { (hand.old.seat.token.me.0.desk.leads ≡ true)
        × (hand.old.seat.token.me.0.desk.victim ≡ victim) }
    requires none { (hand.old.seat.token.me.0.desk.held ≡ [])
        × (hand.old.seat.token.me.0.tasks.promised ≡ []) }
    requires objects { (j : Setup) → hand.old.seat.token.me.0.setup ≡ Some j
        → objects_of j.program.families ≤ scan.old.objects }
    requires entries { RECORDS ≤ scan.old.entries }
    ensures served { Serves hand.old.seat.token.me.0 hand.new.seat.token.me.0 }
    ensures room { HasRoomOf scan.old scan.new }
{
    kt_request::serve(hand.table, &mut hand.seat, victim, scan)
}

impl<'t, H: Home> Run for Recorder<'t, H> {
    ghost view = { λ r. r.hand.seat.token.me.0 };

    fn worker(&self) -> u32 {
        self.hand.worker()
    }

    fn workers(&self) -> u32 {
        self.hand.workers()
    }

    fn load(&mut self, element: u32) -> u64 {
        let found = self.hand.load(element);
        keep(&mut self.log, Event::Loaded(element, found));
        found
    }

    fn store(&mut self, element: u32, value: u64) {
        self.hand.store(element, value);
        keep(&mut self.log, Event::Stored(element, value));
    }

    fn fold(&mut self, element: u32, op: Op, value: u64) {
        self.hand.fold(element, op, value);
        keep(&mut self.log, Event::Folded(element, value));
    }

    fn publish(&mut self, parent: u32, at: u32, frame: u64, fork: u32, child: &Call) -> Published {
        let published = self.hand.publish(parent, at, frame, fork, child);
        keep(&mut self.log, Event::Forked(published));
        published
    }

    fn claim_own(&mut self, at: u32) -> Claim {
        let claim = self.hand.claim_own(at);
        keep(&mut self.log, Event::Claimed(at, claim));
        claim
    }

    fn start(&mut self, at: u32) {
        self.hand.start(at);
        keep(&mut self.log, Event::Started(at));
    }

    fn finish(&mut self, at: u32) {
        self.hand.finish(at);
        keep(&mut self.log, Event::Finished(at));
    }

    fn begin_loop(&mut self, at: u32) -> Begun {
        let begun = self.hand.begin_loop(at);
        keep(&mut self.log, Event::Began(begun));
        begun
    }

    fn take_piece(&mut self, at: u32, piece: Pair) {
        self.hand.take_piece(at, piece);
        keep(&mut self.log, Event::Held(at, piece));
    }

    fn chunk(&mut self, grain: u32) -> Taken {
        let taken = self.hand.chunk(grain);
        keep(&mut self.log, Event::Took(taken));
        taken
    }

    fn retire(&mut self, at: u32, count: u32) -> u32 {
        let left = self.hand.retire(at, count);
        keep(&mut self.log, Event::Retired(left));
        left
    }

    fn left(&mut self, at: u32) -> u32 {
        let left = self.hand.left(at);
        keep(&mut self.log, Event::Left(left));
        left
    }

    fn first_of(&mut self, at: u32) -> u32 {
        self.hand.first_of(at)
    }

    fn stand(&mut self, at: u32) -> StateWord {
        let state = self.hand.stand(at);
        keep(&mut self.log, Event::Found(at, self.hand.seat.word));
        state
    }

    fn stopped(&mut self) -> bool {
        self.hand.stopped()
    }

    fn call_of(&mut self, at: u32) -> Call {
        self.hand.call_of(at)
    }

    fn number_of(&mut self, at: u32) -> u32 {
        self.hand.number_of(at)
    }

    fn path_of(&mut self, at: u32) -> ArrayVec<u32, PATH> {
        self.hand.path_of(at)
    }

    fn post(&mut self, victim: u32) {
        self.hand.post(victim);
        keep(&mut self.log, Event::Posted(victim));
    }

    fn lead(&mut self, victim: u32) -> Lead {
        let lead = self.hand.lead(victim);
        keep(&mut self.log, Event::Led(lead));
        lead
    }

    fn serve(&mut self, victim: u32, scan: &mut Scan) {
        let served = serve_all(&mut self.hand, victim, scan);
        keep_served(&mut self.log, &served);
    }

    fn look(&mut self) -> Answer {
        let answer = self.hand.look();
        keep(&mut self.log, Event::Looked(answer));
        answer
    }

    fn withdraw(&mut self) -> Answer {
        let answer = self.hand.withdraw();
        keep(&mut self.log, Event::Looked(answer));
        answer
    }
}
