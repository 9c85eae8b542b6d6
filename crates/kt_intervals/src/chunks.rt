// A chunk of positions, from the moment that it has been taken until its indexes are retired.
ghost use Rattle.std.specs.Prelude.{◌+◌, ℕ, suc};
ghost use Rattle.kt_calls.specs.Ranges.{IsRecord};
ghost use Rattle.kt_intervals.specs.Chunks.{IsRunWith, IsTaken, IsWithin, Origin};
ghost use Rattle.kt_intervals.specs.Drains.{Drains};
ghost use Rattle.kt_intervals.specs.Programs.{HasFirsts, IsOfRun};

use crate::indexes::{Chunk, Gone, fault_of, go};
use kt_calls::Run;
use kt_faults::earlier;
use kt_prog::{FaultAt, Program};
use kt_words::Pair;
use std::marker::Brand;

/// A seat that runs its interval, and the first fault so far.
pub struct Halfway<R: Run> {
    pub run: R,
    pub fault: Option<FaultAt>,
}

/// Runs the index behind the first `done` ones of a chunk.
fn run_next<R: Run>(seat: Halfway<R>, chunk: Chunk, done: u32) -> Halfway<R>
    requires { (o : Origin) × (left : ℕ)
        × IsRunWith o chunk.program.now chunk.firsts.now chunk.call.now chunk.at
        × IsWithin o chunk.from done (suc left) (R.view seat.run) seat.fault }
    ensures { (o : Origin) (left : ℕ)
        → IsRunWith o chunk.entry.program.now chunk.entry.firsts.now chunk.entry.call.now
        chunk.entry.at
        → IsWithin o chunk.entry.from done (suc left) (R.view seat.run) seat.fault
        → IsWithin o chunk.entry.from (done + 1) left (R.view result.run) result.fault }
{
    let Halfway { run, fault } = seat;
    let index = chunk.from + done;
    let Gone { mut run, ended } = go::<R, Brand>(run, chunk, index);
    let met = fault_of(&mut run, chunk.at, index, ended);
    Halfway {
        run,
        fault: earlier(fault, met),
    }
}

/// Runs all indexes of a chunk, in rising order.
fn run_all<R: Run>(seat: Halfway<R>, chunk: Chunk, count: u32) -> Halfway<R>
    requires { (o : Origin) × IsRunWith o chunk.program.now chunk.firsts.now chunk.call.now chunk.at
        × IsWithin o chunk.from 0 count (R.view seat.run) seat.fault }
    ensures { (o : Origin)
        → IsRunWith o chunk.entry.program.now chunk.entry.firsts.now chunk.entry.call.now
        chunk.entry.at
        → IsWithin o chunk.entry.from 0 count (R.view seat.run) seat.fault
        → IsWithin o chunk.entry.from count 0 (R.view result.run) result.fault }
{
    let mut now = seat;
    for done in 0..count {
        now = run_next(now, chunk, done);
    }
    now
}

/// Runs the indexes at these positions of the loop in the record `at`, which are in hand, and retires them.
pub fn run_taken<R: Run>(
    seat: Halfway<R>,
    program: &Program,
    firsts: &[u32],
    at: u32,
    pair: Pair,
) -> Halfway<R>
    requires inside { IsRecord (R.view seat.run) at }
    requires program { IsOfRun (R.view seat.run) program.now }
    requires firsts { HasFirsts program.now.families firsts.now }
    requires taken { IsTaken at (R.view seat.run) pair }
    ensures { Drains at (R.view seat.run) (R.view result.run) seat.fault result.fault }
{
    let Halfway { mut run, fault } = seat;
    let first = run.first_of(at);
    let call = run.call_of(at);
    let count = pair.high - pair.low;
    let chunk = Chunk {
        program,
        firsts,
        call: &call,
        at,
        from: pair.low - first,
    };
    let Halfway { mut run, fault } = run_all(Halfway { run, fault }, chunk, count);
    run.retire(at, count);
    Halfway { run, fault }
}
