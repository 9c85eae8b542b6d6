// What all seats of a pool do at one time, each on a thread of its own.
ghost use Rattle.std.specs.Prelude.{◌≡◌, ◌≤◌, Some, IfOk, length};
ghost use Rattle.std.specs.List.{All};
ghost use Rattle.kt_law.specs.declared.limits.TheConstants.{WORKERS};
ghost use Rattle.kt_prog.specs.Accepted.{IsAccepted};
ghost use Rattle.kt_prog.specs.Objects.{inputs_of};
ghost use Rattle.kt_rule.specs.declared.tables.RunTable.{RunTable};
ghost use Rattle.kt_calls_bench.specs.Asking.{IsAtStart};
ghost use Rattle.kt_calls_bench.specs.Together.{IsPlace};

use crate::timed::Timed;
use crate::times::Times;
use kt_hands::{Hand, Home};
use kt_law::NoMemory;
use kt_pool::Pool;
use kt_prog::Program;
use kt_rule::{RunTable, Seat};
use kt_worker::{NoGate, Scratch, Worked, work};
use std::alloc::Global;
use std::marker::{Brand, PhantomData};
use std::rt::Clock;
use std::sync::Wait;
use std::thread::{self, Threads};

/// A seat, and the room that its worker needs.
#[derive(Drop)]
pub struct Place {
    pub seat: Seat,
    pub scratch: Scratch,
}

// The seats with their room, worker 0's last.
fn places_of(alloc: Global, program: &Program, mut seats: Vec<Seat>) -> Result<Vec<Place>, NoMemory>
    requires accepted { IsAccepted program.now }
    ensures places { IfOk result (λ places. (t : RunTable)
        → All (IsAtStart t program.now) seats.items → All (IsPlace t program.now) places.items) }
{
    let mut places = Vec::with_capacity(alloc, seats.len())?;
    while let Some(seat) = seats.pop() {
        let scratch = Scratch::new(alloc, program)?;
        places.push(Place { seat, scratch })?;
    }
    Ok(places)
}

// One worker from its first step to its last, at a table that the type names.
fn run_at<H: Home, C: Clock + Wait>(
    rt: &C,
    table: &RunTable,
    program: &Program,
    place: Place,
) -> Times
    requires home { H.table ≡ Some table.now.table.shared.table_id }
    requires accepted { IsAccepted program.now }
    requires place { IsPlace table.now program.now place }
{
    let Place { seat, mut scratch } = place;
    let hand: Hand<H> = Hand {
        table,
        seat,
        of: PhantomData,
    };
    let timed = Timed {
        run: hand,
        clock: rt,
        times: Times::default(),
    };
    let Worked { run, fault: _ } = work(rt, timed, program, &NoGate, &mut scratch);
    let Timed {
        run,
        clock: _,
        times,
    } = run;
    let _seat = run.into_seat();
    times
}

fn run_on<C: Clock + Wait>(rt: &C, table: &RunTable, program: &Program, place: Place) -> Times
    requires accepted { IsAccepted program.now }
    requires place { IsPlace table.now program.now place }
{
    run_at::<Brand, C>(rt, table, program, place)
}

// A thread for each. The last of the list begins here, so the run ends even if no thread can be made.
fn send_out<C: Clock + Wait + Threads + Sync>(
    rt: &C,
    table: &RunTable,
    program: &Program,
    places: Vec<Place>,
) -> Result<Vec<Times>, NoMemory>
    requires accepted { IsAccepted program.now }
    requires places { All (IsPlace table.now program.now) places.items }
{
    let one = |place: Place| -> Times
        requires { IsAccepted program.now × IsPlace table.now program.now place }
    { run_on(rt, table, program, place) };
    Ok(thread::map_vec(rt, places, &one)?)
}

/// Runs the whole program by all workers. What the calls of each seat took, the last worker's first.
pub fn together<C: Clock + Wait + Threads + Sync>(
    rt: &C,
    alloc: Global,
    program: &Program,
    input: &[u64],
    workers: u32,
) -> Result<Vec<Times>, NoMemory>
    requires accepted { IsAccepted program.now }
    requires whole { length input.now ≡ inputs_of program.now.families }
    requires some { 1 ≤ workers }
    requires few { workers ≤ WORKERS }
{
    let (pool, seats) = Pool::new(alloc, program, input, workers)?;
    let places = places_of(alloc, program, seats)?;
    send_out(rt, pool.table(), program, places)
}
