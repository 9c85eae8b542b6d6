// A seat whose calls are timed.
use crate::times::{Times, now};
use arrayvec::ArrayVec;
use kt_calls::{Answer, Begun, Claim, Lead, Published, Run, Taken};
use kt_law::Op;
use kt_prog::{Call, PATH};
use kt_ready::Scan;
use kt_words::{Pair, StateWord};
use std::rt::Clock;

/// A seat, and what its calls took by a clock.
pub struct Timed<'c, R: Run, C: Clock> {
    pub run: R,
    pub clock: &'c C,
    pub times: Times,
}

impl<'c, R: Run, C: Clock> Run for Timed<'c, R, C> {
    ghost view = { λ t. R.view t.run };

    fn worker(&self) -> u32 {
        self.run.worker()
    }

    fn workers(&self) -> u32 {
        self.run.workers()
    }

    fn load(&mut self, element: u32) -> u64 {
        let start = now(self.clock);
        let found = self.run.load(element);
        self.times.load.count(start, now(self.clock));
        found
    }

    fn store(&mut self, element: u32, value: u64) {
        let start = now(self.clock);
        self.run.store(element, value);
        self.times.store.count(start, now(self.clock));
    }

    fn fold(&mut self, element: u32, op: Op, value: u64) {
        let start = now(self.clock);
        self.run.fold(element, op, value);
        self.times.fold.count(start, now(self.clock));
    }

    fn publish(&mut self, parent: u32, at: u32, frame: u64, fork: u32, child: &Call) -> Published {
        let start = now(self.clock);
        let published = self.run.publish(parent, at, frame, fork, child);
        self.times.publish.count(start, now(self.clock));
        published
    }

    fn claim_own(&mut self, at: u32) -> Claim {
        let start = now(self.clock);
        let claim = self.run.claim_own(at);
        self.times.claim_own.count(start, now(self.clock));
        claim
    }

    fn start(&mut self, at: u32) {
        let start = now(self.clock);
        self.run.start(at);
        self.times.start.count(start, now(self.clock));
    }

    fn finish(&mut self, at: u32) {
        let start = now(self.clock);
        self.run.finish(at);
        self.times.finish.count(start, now(self.clock));
    }

    fn begin_loop(&mut self, at: u32) -> Begun {
        self.run.begin_loop(at)
    }

    fn take_piece(&mut self, at: u32, piece: Pair) {
        self.run.take_piece(at, piece);
    }

    fn chunk(&mut self, grain: u32) -> Taken {
        self.run.chunk(grain)
    }

    fn retire(&mut self, at: u32, count: u32) -> u32 {
        self.run.retire(at, count)
    }

    fn left(&mut self, at: u32) -> u32 {
        self.run.left(at)
    }

    fn first_of(&mut self, at: u32) -> u32 {
        self.run.first_of(at)
    }

    fn stand(&mut self, at: u32) -> StateWord {
        self.run.stand(at)
    }

    fn stopped(&mut self) -> bool {
        self.run.stopped()
    }

    fn call_of(&mut self, at: u32) -> Call {
        self.run.call_of(at)
    }

    fn number_of(&mut self, at: u32) -> u32 {
        self.run.number_of(at)
    }

    fn path_of(&mut self, at: u32) -> ArrayVec<u32, PATH> {
        self.run.path_of(at)
    }

    fn post(&mut self, victim: u32) {
        let start = now(self.clock);
        self.run.post(victim);
        self.times.post.count(start, now(self.clock));
    }

    fn lead(&mut self, victim: u32) -> Lead {
        let start = now(self.clock);
        let lead = self.run.lead(victim);
        self.times.lead.count(start, now(self.clock));
        lead
    }

    fn serve(&mut self, victim: u32, scan: &mut Scan) {
        let start = now(self.clock);
        self.run.serve(victim, scan);
        self.times.serve.count(start, now(self.clock));
    }

    fn look(&mut self) -> Answer {
        let start = now(self.clock);
        let answer = self.run.look();
        self.times.look.count(start, now(self.clock));
        answer
    }

    fn withdraw(&mut self) -> Answer {
        self.run.withdraw()
    }
}
