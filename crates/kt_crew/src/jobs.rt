// What each worker takes along when it is sent out, and what it brings back.

use kt_prog::FaultAt;
use kt_rule::Seat;
use kt_worker::Scratch;

/// A seat, and the room that its worker needs.
#[derive(Drop)]
pub struct Job {
    pub seat: Seat,
    pub scratch: Scratch,
}

/// The seat of a worker that has ended, and the least fault that it met.
#[derive(Drop)]
pub struct Done {
    pub seat: Seat,
    pub fault: Option<FaultAt>,
}
