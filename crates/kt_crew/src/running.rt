// A run on workers.
ghost use Rattle.std.specs.Prelude.{ℕ, ◌≡◌, ◌≢◌, ◌↔◌, ◌≤◌, List, [], None, Some, length, reverse, vec_capacity, IfOk, true};
ghost use denote.Param.Send.{IsSync};
ghost use Rattle.kt_law.specs.declared.limits.TheConstants.{WORKERS};
ghost use Rattle.kt_prog.specs.Accepted.{IsAccepted};
ghost use Rattle.kt_prog.specs.Objects.{elements_of, inputs_of};
ghost use Rattle.kt_prog.specs.Outcome.{outcome_of};
ghost use Rattle.kt_prog.specs.declared.runs.Outcome.TheVariants.{Limit, Rows};
ghost use Rattle.kt_rule.specs.declared.views.Setup.{Setup};
ghost use Rattle.kt_pool.specs.Exact.{IsExact, joined_view, limit_of, workers_of};
ghost use Rattle.kt_pool.specs.Seats.{setup_of};
ghost use Rattle.kt_crew.specs.Crews.{AreDone, AreJobs, AreReady, IsDoneBy, IsJobOf, IsRun, seats_back, seats_in};
ghost use Rattle.kt_crew.specs.Ends.{comes_to, first_with};

use crate::jobs::{Done, Job};
use kt_faults::earlier;
use kt_faults::laws::{earlier_is_first, first_is_answer};
use kt_hands::{Hand, Home};
use kt_law::NoMemory;
use kt_pool::{Closed, Pool, Record};
use kt_prog::{FaultAt, Outcome, Program, Ran};
use kt_rule::{RunTable, Seat};
use kt_worker::{Gate, Scratch, Worked, work};
use sqlite_items::Items;
use std::alloc::Global;
use std::marker::{Brand, PhantomData};
use std::sync::Wait;
use std::thread::{self, Threads};

/// Each seat with the room that its worker needs.
fn jobs_of(alloc: Global, program: &Program, mut seats: Vec<Seat>) -> Result<Vec<Job>, NoMemory>
    requires { IsAccepted program.now }
    ensures seats { IfOk result (λ jobs. seats_in jobs.items ≡ seats.items) }
    ensures ready { IfOk result (λ jobs. AreReady program.now jobs.items) }
{
    let mut jobs = Vec::with_capacity(alloc, seats.len())?;
    while !seats.is_empty() {
        let scratch = Scratch::new(alloc, program)?;
        jobs.push_reserved(Job {
            seat: seats.remove(0),
            scratch,
        });
    }
    Ok(jobs)
}

/// Works at a seat of the table that the type names.
fn work_at<H: Home, R: Wait, G: Gate>(
    rt: &R,
    table: &RunTable,
    program: &Program,
    gate: &G,
    job: Job,
) -> Done
    requires home { H.table ≡ Some table.now.table.shared.table_id }
    requires job { (j : Setup) × (k : _) × IsRun j program.now
        × IsJobOf j table.now program.now k job }
    ensures done { (j : Setup) (k : _) → IsJobOf j table.now program.now k job
        → IsDoneBy j table.now program.now k result }
{
    let Job { seat, mut scratch } = job;
    let hand: Hand<H> = Hand {
        table,
        seat,
        of: PhantomData,
    };
    let Worked { run, fault } = work(rt, hand, program, gate, &mut scratch);
    Done {
        seat: run.into_seat(),
        fault,
    }
}

/// One worker from its first step to its last.
fn work_on<R: Wait, G: Gate>(
    rt: &R,
    table: &RunTable,
    program: &Program,
    gate: &G,
    job: Job,
) -> Done
    requires { (j : Setup) × (k : _) × IsRun j program.now × IsJobOf j table.now program.now k job }
    ensures { (j : Setup) (k : _) → IsJobOf j table.now program.now k job
        → IsDoneBy j table.now program.now k result }
{
    work_at::<Brand, R, G>(rt, table, program, gate, job)
}

/// The list from its end to its beginning.
fn turned_round<T>(mut list: Vec<T>) -> Vec<T>
    ensures { result.items ≡ reverse list.items }
{
    list.as_mut_slice().reverse();
    list
}

/// Gives each worker a thread, where one can be made, and waits for all. The last of a list runs here and first, and `main` is
/// worker 0's, for which all others wait: so the list is turned round, and the run ends even if no thread can be made.
fn send_out<R: Threads + Wait + Sync, G: Gate + Sync>(
    rt: &R,
    table: &RunTable,
    program: &Program,
    gate: &G,
    jobs: Vec<Job>,
) -> Result<Vec<Done>, NoMemory>
    requires { (j : Setup) × IsRun j program.now × AreJobs j table.now program.now jobs.items }
    ensures { IfOk result (λ done. (j : Setup) → AreJobs j table.now program.now jobs.items
        → AreDone j table.now program.now done.items) }
{
    let one = |job: Job| -> Done
        requires { (j : Setup) × (k : _) × IsRun j program.now
            × IsJobOf j table.now program.now k job }
        ensures { (j : Setup) (k : _) → IsJobOf j table.entry.now program.entry.now k job
            → IsDoneBy j table.entry.now program.entry.now k result }
    { work_on(rt, table, program, gate, job) };
    let done = thread::map_vec(rt, turned_round(jobs), &one)?;
    Ok(turned_round(done))
}

/// The seats of all workers, and the least fault that one of them met. The vector has room for the seats.
fn gather(mut all: Vec<Done>, mut seats: Vec<Seat>) -> (Vec<Seat>, Option<FaultAt>)
    requires { (seats.items ≡ []) × (length all.items ≤ vec_capacity seats) }
    ensures seats { result.0.items ≡ seats_back all.items }
    ensures fault { result.1 ≡ first_with None all.items }
{
    let mut least = None;
    while !all.is_empty() {
        let Done { seat, fault } = all.remove(0);
        seats.push_reserved(seat);
        least = earlier(least, fault);
    }
    (seats, least)
}

fn ran_of(closed: Closed, least: Option<FaultAt>) -> Ran
    ensures { result ≡ comes_to closed least }
{
    let Closed {
        rows,
        tasks,
        indexes,
        limit,
    } = closed;
    if limit {
        return Ran {
            outcome: Outcome::Limit,
            tasks: 0,
            indexes: 0,
        };
    }
    let outcome = match least {
        None => Outcome::Rows(Items::from_vec(rows)),
        Some(fault) => Outcome::Fault(fault),
    };
    Ran {
        outcome,
        tasks,
        indexes,
    }
}

/// Runs a program on so many workers. It may wait, and where it returns the answer is that of the reference run.
/// The gate is told of each task that is about to run.
pub fn run_all<R: Threads + Wait + Sync, G: Gate + Sync>(
    rt: &R,
    alloc: Global,
    program: &Program,
    input: &[u64],
    workers: u32,
    gate: &G,
) -> Result<(Ran, Record), NoMemory>
    requires accepted { IsAccepted program.now }
    requires whole { length input.now ≡ inputs_of program.now.families }
    requires some { 1 ≤ workers }
    requires few { workers ≤ WORKERS }
    ensures ran { IfOk result (λ x. x.0 ≡ outcome_of program.now input.now) }
    ensures workers { IfOk result (λ x. workers_of x.1 ≡ workers) }
    ensures rows { IfOk result (λ x. (rows : List ℕ) → x.0.outcome ≡ Rows rows
        → length rows ≡ elements_of program.now.families) }
    ensures limit { IfOk result (λ x. (limit_of x.1 ≡ true) ↔ (x.0.outcome ≡ Limit)) }
    ensures once { IfOk result (λ x. x.0.outcome ≢ Limit
        → IsExact (setup_of program.now input.now workers) (joined_view x.1)) }
{
    earlier_is_first();
    first_is_answer();
    let (pool, seats) = Pool::new(alloc, program, input, workers)?;
    let room = Vec::with_capacity(alloc, workers as usize)?;
    let jobs = jobs_of(alloc, program, seats)?;
    let done = send_out(rt, pool.table(), program, gate, jobs)?;
    let (seats, least) = gather(done, room);
    let (closed, record) = pool.close(seats);
    Ok((ran_of(closed, least), record))
}
