// The calls.
use crate::hands::{Hand, Home};
use arrayvec::ArrayVec;
use kt_calls::{Answer, Begun, Claim, Lead, Published, Run, Taken};
use kt_law::Op;
use kt_prog::{Call, PATH};
use kt_ready::Scan;
use kt_words::{Pair, StateWord};

impl<'t, H: Home> Run for Hand<'t, H> {
    ghost view = { λ h. h.seat.token.me.0 };

    fn worker(&self) -> u32 {
        self.seat.worker
    }

    fn workers(&self) -> u32 {
        self.table.layout.workers
    }

    fn load(&mut self, element: u32) -> u64 {
        kt_cells::load(self.table, &mut self.seat, element)
    }

    fn store(&mut self, element: u32, value: u64) {
        kt_cells::store(self.table, &mut self.seat, element, value);
    }

    fn fold(&mut self, element: u32, op: Op, value: u64) {
        kt_cells::fold(self.table, &mut self.seat, element, op, value);
    }

    fn publish(&mut self, parent: u32, at: u32, frame: u64, fork: u32, child: &Call) -> Published {
        kt_tasks::publish(self.table, &mut self.seat, parent, at, frame, fork, child)
    }

    fn claim_own(&mut self, at: u32) -> Claim {
        kt_tasks::claim_own(self.table, &mut self.seat, at)
    }

    fn start(&mut self, at: u32) {
        kt_tasks::start(self.table, &mut self.seat, at);
    }

    fn finish(&mut self, at: u32) {
        kt_tasks::finish(self.table, &mut self.seat, at);
    }

    fn begin_loop(&mut self, at: u32) -> Begun {
        kt_loops::begin_loop(self.table, &mut self.seat, at)
    }

    fn take_piece(&mut self, at: u32, piece: Pair) {
        kt_loops::take_piece(self.table, &mut self.seat, at, piece);
    }

    fn chunk(&mut self, grain: u32) -> Taken {
        kt_loops::chunk(self.table, &mut self.seat, grain)
    }

    fn retire(&mut self, at: u32, count: u32) -> u32 {
        kt_loops::retire(self.table, &mut self.seat, at, count)
    }

    fn left(&mut self, at: u32) -> u32 {
        kt_loops::left(self.table, &mut self.seat, at)
    }

    fn first_of(&mut self, at: u32) -> u32 {
        kt_loops::first_of(self.table, &mut self.seat, at)
    }

    fn stand(&mut self, at: u32) -> StateWord {
        kt_tasks::stand(self.table, &mut self.seat, at)
    }

    fn stopped(&mut self) -> bool {
        kt_tasks::stopped(self.table, &mut self.seat)
    }

    fn call_of(&mut self, at: u32) -> Call {
        kt_tasks::call_of(self.table, &mut self.seat, at)
    }

    fn number_of(&mut self, at: u32) -> u32 {
        kt_tasks::number_of(self.table, &mut self.seat, at)
    }

    fn path_of(&mut self, at: u32) -> ArrayVec<u32, PATH> {
        kt_tasks::path_of(self.table, &mut self.seat, at)
    }

    fn post(&mut self, victim: u32) {
        kt_request::post(self.table, &mut self.seat, victim);
    }

    fn lead(&mut self, victim: u32) -> Lead {
        kt_request::lead(self.table, &mut self.seat, victim)
    }

    fn serve(&mut self, victim: u32, scan: &mut Scan) {
        kt_request::serve(self.table, &mut self.seat, victim, scan);
    }

    fn look(&mut self) -> Answer {
        kt_request::look(self.table, &mut self.seat)
    }

    fn withdraw(&mut self) -> Answer {
        kt_request::withdraw(self.table, &mut self.seat)
    }
}
