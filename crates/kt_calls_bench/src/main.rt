//! Times the calls of seats, of one alone and of all at one time, for `bench/calls.py`.
//!
//! Standard input is a job. The words are how many workers its table has, how often the seat asks, and `time`. Twice the seat is worker 0's: once it
//! runs the body of `main`, begins one of the children, and asks itself for work while the others wait; once it runs the whole program, and then asks.
//! A line has what was done, a kind of call and how many there were; with the word `time` behind them also the nanoseconds of all of them. With that word
//! a third run follows, of all seats at one time, each on a thread of its own: lines of `crew` for each seat, since who does what depends on the schedule.
#![tactic(auto)]

mod asking;
mod scenes;
mod timed;
mod times;
mod together;

ghost use Rattle.std.specs.Prelude.{◌≤◌, length};
ghost use Rattle.kt_law.specs.declared.limits.TheConstants.{JOB};

use kt_io::{StdSource, read_all};
use kt_law::{JOB, NoMemory, WORKERS};
use kt_open::open_job;
use scenes::{Found, finished, waiting};
use std::alloc::Global;
use std::rt::Clock;
use std::sync::Wait;
use std::thread::Threads;
use std::{env, io};
use times::{Time, Times, empty};
use together::together;

/// What the words ask for.
#[derive(Clone, Copy)]
struct Request {
    workers: u32,
    times: u32,
    is_timed: bool,
}

fn request_of(rt: &HostRuntime) -> io::Result<Option<Request>> {
    let mut words = env::args(rt)?.skip(1);
    let (Some(workers), Some(times)) = (words.next(), words.next()) else {
        return Ok(None);
    };
    let (Ok(workers), Ok(times)) = (workers.as_str().parse(), times.as_str().parse()) else {
        return Ok(None);
    };
    let is_timed = words.next().is_some();
    Ok(Some(Request {
        workers,
        times,
        is_timed,
    }))
}

fn tell(rt: &HostRuntime, request: &Request, what: &str, kind: &str, time: Time) -> io::Result<()> {
    if request.is_timed {
        return println!(rt; "{what} {kind} {} {}", time.calls, time.nanoseconds);
    }
    println!(rt; "{what} {kind} {}", time.calls)
}

fn tell_all(rt: &HostRuntime, request: &Request, what: &str, times: &Times) -> io::Result<()> {
    for (kind, time) in times.rows() {
        tell(rt, request, what, kind, time)?;
    }
    Ok(())
}

fn tell_found(
    rt: &HostRuntime,
    request: &Request,
    own: &str,
    asking: &str,
    found: &Found,
) -> io::Result<()> {
    tell_all(rt, request, own, &found.own)?;
    tell_all(rt, request, asking, &found.asking)?;
    println!(rt; "{asking} nothing {}", found.asked)
}

/// Why nothing was timed.
#[derive(Clone, Copy)]
enum Unable {
    NoJob,
    NoWorkers,
    NoMemory,
}

impl From<NoMemory> for Unable {
    fn from(_: NoMemory) -> Unable {
        Unable::NoMemory
    }
}

/// What was timed.
#[derive(Drop)]
struct Timings {
    wait: Found,
    ran: Found,
    /// Of each seat; none where no times are told.
    crew: Vec<Times>,
}

/// One seat's calls while children wait, and by a whole run, and those of all seats at one time.
fn measured<C: Clock + Wait + Threads + Sync>(
    rt: &C,
    alloc: Global,
    request: &Request,
    job: &[u8],
) -> Result<Timings, Unable>
    requires { length job.now ≤ JOB }
{
    let Ok((program, input)) = open_job(alloc, job) else {
        return Err(Unable::NoJob);
    };
    if request.workers < 1 || request.workers > WORKERS {
        return Err(Unable::NoWorkers);
    }
    let wait = waiting(rt, alloc, &program, &input, request.workers, request.times)?;
    let ran = finished(rt, alloc, &program, &input, request.workers, request.times)?;
    let crew = if request.is_timed {
        together(rt, alloc, &program, &input, request.workers)?
    } else {
        Vec::new(alloc)
    };
    Ok(Timings { wait, ran, crew })
}

fn main(rt: HostRuntime) -> io::Result<()> {
    let Some(request) = request_of(&rt)? else {
        return println!(rt; "kt_calls_bench WORKERS TIMES [time]");
    };
    let mut source = StdSource::new(rt.reader());
    let Ok(job) = read_all(rt.alloc(), &mut source, JOB) else {
        return println!(rt; "cannot read the job");
    };
    match measured(&rt, rt.alloc(), &request, job.as_slice()) {
        Ok(Timings { wait, ran, crew }) => {
            tell_found(&rt, &request, "main", "waiting", &wait)?;
            tell_found(&rt, &request, "run", "finished", &ran)?;
            for times in &crew {
                tell_all(&rt, &request, "crew", times)?;
            }
            let nothing = empty(&rt, request.times);
            tell(&rt, &request, "clock", "empty", nothing)
        }
        Err(Unable::NoJob) => println!(rt; "no job"),
        Err(Unable::NoWorkers) => println!(rt; "1 to 8 workers"),
        Err(Unable::NoMemory) => println!(rt; "out of memory"),
    }
}
