// A loop from its beginning on, and the own interval.
ghost use Rattle.std.specs.Prelude.{◌≡◌, ◌+◌, [], suc, true};
ghost use Rattle.kt_calls.specs.Ranges.{IsOfCrew, IsRecord};
ghost use Rattle.kt_intervals.specs.Programs.{HasFirsts, IsOfRun};
ghost use Rattle.kt_prog.specs.Accepted.{IsAccepted};
ghost use Rattle.kt_prog.specs.Operations.{is_loop_at};
ghost use Rattle.kt_tasks.specs.Hands.{IsCallIn};
ghost use Rattle.kt_worker.specs.Levels.{HasBegun, Turns};
ghost use Rattle.kt_worker.specs.Looping.{MayLoop, Opens, RanOwn};
ghost use Rattle.kt_worker.specs.Programs.{HasRoom};

use crate::beginning::is_halted;
use crate::body::{Gone, Start, zero};
use crate::scratch::Tools;
use crate::stacks::Level;
use crate::tallies::Tally;
use crate::workers::Worker;
use kt_body::Ended;
use kt_calls::{Begun, Run};
use kt_intervals::{Ran, run_interval};
use kt_prog::Call;
use std::marker::Brand;
use std::sync::Wait;

/// Runs the own interval, of the loop in the record `at`. False where the run stops.
pub fn run_own<'a, R: Run, W: Wait>(rt: &W, worker: Worker<'a, R>, at: u32) -> (Worker<'a, R>, bool)
    requires crew { IsOfCrew (R.view worker.run) }
    requires inside { IsRecord (R.view worker.run) at }
    requires program { IsOfRun (R.view worker.run) worker.program.now }
    requires firsts { HasFirsts worker.program.now.families worker.firsts.now }
    requires home { (R.view worker.run).loops.home ≡ suc at }
    requires none_taken { (R.view worker.run).loops.taken ≡ [] }
    ensures ran { RanOwn at (R.view worker.entry.run) (R.view result.0.run) worker.entry.tally
        result.0.tally result.1 }
    ensures program { (result.0.program.now ≡ worker.entry.program.now)
        × (result.0.firsts.now ≡ worker.entry.firsts.now) }
{
    let Worker {
        run,
        program,
        firsts,
        pause,
        mut tally,
    } = worker;
    let before = tally.fault.take();
    let Ran { run, fault, empty } = run_interval(rt, run, program, firsts, at, before);
    tally.fault = fault;
    let worker = Worker {
        run,
        program,
        firsts,
        pause,
        tally,
    };
    (worker, empty)
}

/// Begins the loop of the running body, whose zeroing is done. False where the run stops.
fn begin<'a, R: Run>(
    mut worker: Worker<'a, R>,
    tools: &mut Tools,
    level: Level,
) -> (Worker<'a, R>, bool)
    requires may { MayLoop (R.view worker.run) worker.program.now worker.tally
        tools.old.stack.levels level }
    requires room { HasRoom worker.program.now tools.old }
    ensures opened { Opens (R.view worker.entry.run) (R.view result.0.run) worker.entry.program.now
        result.0.tally tools.new.stack.levels level.at result.1 }
    ensures room { HasRoom worker.entry.program.now tools.new }
    ensures program { (result.0.program.now ≡ worker.entry.program.now)
        × (result.0.firsts.now ≡ worker.entry.firsts.now) }
{
    match worker.run.begin_loop(level.at) {
        Begun::Limit(_) => (worker, false),
        Begun::Begun(_) => {
            tools.stack.push(level);
            (worker, true)
        }
    }
}

/// Opens the loop that was begun last: zeroes what its indexes write, and begins it, so that all its positions are the own interval.
/// False where the run stops.
pub fn open_loop<'a, R: Run>(
    worker: Worker<'a, R>,
    tools: &mut Tools,
    call: &Call,
    at: u32,
    own: bool,
) -> (Worker<'a, R>, bool)
    requires begun { HasBegun (R.view worker.run) worker.program.now worker.tally
        tools.old.stack.levels at own }
    requires accepted { IsAccepted worker.program.now }
    requires call { IsCallIn (R.view worker.run) at call.now }
    requires loops { is_loop_at worker.program.now call.now.task ≡ true }
    requires firsts { HasFirsts worker.program.now.families worker.firsts.now }
    requires room { HasRoom worker.program.now tools.old }
    ensures opened { Opens (R.view worker.entry.run) (R.view result.0.run) worker.entry.program.now
        result.0.tally tools.new.stack.levels at result.1 }
    ensures room { HasRoom worker.entry.program.now tools.new }
    ensures program { (result.0.program.now ≡ worker.entry.program.now)
        × (result.0.firsts.now ≡ worker.entry.firsts.now) }
{
    let Worker {
        run,
        program,
        firsts,
        pause,
        tally,
    } = worker;
    let first = tally.used;
    let begun = tally.begun + 1;
    let start = Start {
        program,
        firsts,
        call,
        parent: at,
        first,
        frame: begun,
    };
    let Gone {
        run,
        ended,
        forks,
        elements: _,
    } = zero::<R, Brand>(run, start);
    // The indexes are worth any search.
    tools.owed = 0;
    if is_halted(ended) {
        let worker = Worker {
            run,
            program,
            firsts,
            pause,
            tally,
        };
        return (worker, false);
    }
    let used = first + forks;
    let worker = Worker {
        run,
        program,
        firsts,
        pause,
        tally: Tally {
            used,
            begun,
            ..tally
        },
    };
    let level = Level {
        at,
        first,
        count: forks,
        next: 0,
        own,
        stolen: false,
        looping: true,
        ended: Ended::Done,
    };
    begin(worker, tools, level)
}

/// Opens the loop that was begun last, and runs its indexes; the worker waits for those that others took. False where the run stops.
pub fn run_loop<'a, R: Run, W: Wait>(
    rt: &W,
    worker: Worker<'a, R>,
    tools: &mut Tools,
    call: &Call,
    at: u32,
    own: bool,
) -> (Worker<'a, R>, bool)
    requires begun { HasBegun (R.view worker.run) worker.program.now worker.tally
        tools.old.stack.levels at own }
    requires accepted { IsAccepted worker.program.now }
    requires call { IsCallIn (R.view worker.run) at call.now }
    requires loops { is_loop_at worker.program.now call.now.task ≡ true }
    requires firsts { HasFirsts worker.program.now.families worker.firsts.now }
    requires room { HasRoom worker.program.now tools.old }
    ensures turns { Turns (R.view worker.entry.run) (R.view result.0.run) worker.entry.program.now
        result.0.tally tools.new.stack.levels result.1 }
    ensures room { HasRoom worker.entry.program.now tools.new }
    ensures program { (result.0.program.now ≡ worker.entry.program.now)
        × (result.0.firsts.now ≡ worker.entry.firsts.now) }
{
    let (worker, opened) = open_loop(worker, tools, call, at, own);
    if opened {
        return run_own(rt, worker, at);
    }
    (worker, false)
}
