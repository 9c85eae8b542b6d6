// What the seat of worker 0 does at its table, all on one thread.
ghost use Rattle.std.specs.Prelude.{◌≡◌, ◌≤◌, Some, [], true, length};
ghost use Rattle.kt_law.specs.declared.limits.TheConstants.{WORKERS};
ghost use Rattle.kt_prog.specs.Accepted.{IsAccepted};
ghost use Rattle.kt_prog.specs.Objects.{inputs_of};
ghost use Rattle.kt_worker.specs.Working.{IsFresh};
ghost use Rattle.kt_calls_bench.specs.Asking.{HasScan, IsAtStart, IsReady, MayAsk};

use crate::asking::{ask_often, start_one};
use crate::timed::Timed;
use crate::times::Times;
use crossbeam_utils::Backoff;
use kt_calls::Run;
use kt_hands::{Hand, Home};
use kt_law::NoMemory;
use kt_pool::Pool;
use kt_prog::{Program, laws, objects};
use kt_ready::Scan;
use kt_rule::{RunTable, Seat};
use kt_words::RECORDS;
use kt_worker::{NoGate, Scratch, Worked, Worker, first_turn, tally_of, work};
use std::alloc::Global;
use std::marker::{Brand, PhantomData};
use std::rt::Clock;
use std::sync::Wait;

/// What the calls of the program's own took, and those of requests that got nothing.
#[derive(Clone, Copy, Debug)]
pub struct Found {
    pub own: Times,
    pub asking: Times,
    pub asked: u32,
}

// Worker 0 runs the body of `main`, whose children wait then. False where the run stops.
fn begin<R: Run, W: Wait>(rt: &W, run: R, program: &Program, scratch: &mut Scratch) -> (R, bool)
    requires fresh { IsFresh (R.view run) program.now }
    requires accepted { IsAccepted program.now }
    requires ready { IsReady program.now scratch.old }
    ensures may { result.1 ≡ true → MayAsk (R.view result.0) scratch.new.tools.scan }
{
    let Scratch { tools, firsts } = scratch;
    let pause = Backoff::new();
    let tally = tally_of(run.worker());
    let worker = Worker {
        run,
        program,
        firsts: firsts.as_slice(),
        pause: &pause,
        tally,
    };
    let (worker, more) = first_turn(rt, worker, tools, &NoGate);
    let Worker {
        run,
        program: _,
        firsts: _,
        pause: _,
        tally: _,
    } = worker;
    (run, more)
}

// Asks while the children of `main` wait, all but one that is begun first.
fn wait_at<H: Home, C: Clock + Wait>(
    rt: &C,
    table: &RunTable,
    program: &Program,
    seat: Seat,
    mut scratch: Scratch,
    times: u32,
) -> Found
    requires home { H.table ≡ Some table.now.table.shared.table_id }
    requires first { IsAtStart table.now program.now seat }
    requires accepted { IsAccepted program.now }
    requires ready { IsReady program.now scratch }
{
    let hand: Hand<H> = Hand {
        table,
        seat,
        of: PhantomData,
    };
    let timed = Timed {
        run: hand,
        clock: rt,
        times: Times::default(),
    };
    let (mut timed, more) = begin(rt, timed, program, &mut scratch);
    let own = timed.times;
    let mut asked = 0;
    if more && start_one(&mut timed, &mut scratch.tools.scan) {
        timed.times = Times::default();
        asked = ask_often(&mut timed, &mut scratch.tools.scan, times);
    }
    let Timed {
        run,
        clock: _,
        times: asking,
    } = timed;
    let _seat = run.into_seat();
    Found { own, asking, asked }
}

// Runs the whole program, and then asks.
fn work_at<H: Home, C: Clock + Wait>(
    rt: &C,
    table: &RunTable,
    program: &Program,
    seat: Seat,
    mut scratch: Scratch,
    mut scan: Scan,
    times: u32,
) -> Found
    requires home { H.table ≡ Some table.now.table.shared.table_id }
    requires first { IsAtStart table.now program.now seat }
    requires accepted { IsAccepted program.now }
    requires ready { IsReady program.now scratch }
    requires room { HasScan program.now scan }
{
    let hand: Hand<H> = Hand {
        table,
        seat,
        of: PhantomData,
    };
    let timed = Timed {
        run: hand,
        clock: rt,
        times: Times::default(),
    };
    let Worked { run, fault: _ } = work(rt, timed, program, &NoGate, &mut scratch);
    let mut timed = run;
    let own = timed.times;
    timed.times = Times::default();
    let asked = ask_often(&mut timed, &mut scan, times);
    let Timed {
        run,
        clock: _,
        times: asking,
    } = timed;
    let _seat = run.into_seat();
    Found { own, asking, asked }
}

fn wait_on<C: Clock + Wait>(
    rt: &C,
    table: &RunTable,
    program: &Program,
    seat: Seat,
    scratch: Scratch,
    times: u32,
) -> Found
    requires first { IsAtStart table.now program.now seat }
    requires accepted { IsAccepted program.now }
    requires ready { IsReady program.now scratch }
{
    wait_at::<Brand, C>(rt, table, program, seat, scratch, times)
}

fn work_on<C: Clock + Wait>(
    rt: &C,
    table: &RunTable,
    program: &Program,
    seat: Seat,
    scratch: Scratch,
    scan: Scan,
    times: u32,
) -> Found
    requires first { IsAtStart table.now program.now seat }
    requires accepted { IsAccepted program.now }
    requires ready { IsReady program.now scratch }
    requires room { HasScan program.now scan }
{
    work_at::<Brand, C>(rt, table, program, seat, scratch, scan, times)
}

/// Asks so often while the children of `main` wait.
pub fn waiting<C: Clock + Wait>(
    rt: &C,
    alloc: Global,
    program: &Program,
    input: &[u64],
    workers: u32,
    times: u32,
) -> Result<Found, NoMemory>
    requires accepted { IsAccepted program.now }
    requires whole { length input.now ≡ inputs_of program.now.families }
    requires some { 1 ≤ workers }
    requires few { workers ≤ WORKERS }
{
    let (pool, mut seats) = Pool::new(alloc, program, input, workers)?;
    let scratch = Scratch::new(alloc, program)?;
    let seat = seats.remove(0);
    Ok(wait_on(rt, pool.table(), program, seat, scratch, times))
}

/// Runs the whole program by worker 0, and then asks so often.
pub fn finished<C: Clock + Wait>(
    rt: &C,
    alloc: Global,
    program: &Program,
    input: &[u64],
    workers: u32,
    times: u32,
) -> Result<Found, NoMemory>
    requires accepted { IsAccepted program.now }
    requires whole { length input.now ≡ inputs_of program.now.families }
    requires some { 1 ≤ workers }
    requires few { workers ≤ WORKERS }
{
    let (pool, mut seats) = Pool::new(alloc, program, input, workers)?;
    let scratch = Scratch::new(alloc, program)?;
    laws::few_objects();
    let scan = Scan::reserve(alloc, objects(program), RECORDS)?;
    let seat = seats.remove(0);
    Ok(work_on(rt, pool.table(), program, seat, scratch, scan, times))
}
