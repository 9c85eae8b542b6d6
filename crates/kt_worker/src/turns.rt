// The turns of a worker.
ghost use Rattle.std.specs.Prelude.{◌≡◌, ◌≤◌, ◌<◌, ◌+◌, ◌∷◌, [], length, true};
ghost use Rattle.kt_intervals.specs.Programs.{HasFirsts};
ghost use Rattle.kt_prog.specs.Accepted.{IsAccepted};
ghost use Rattle.kt_worker.specs.Levels.{Calm, Turns};
ghost use Rattle.kt_worker.specs.Programs.{HasRoom};
ghost use Rattle.kt_worker.specs.Turns.{IsAboutToStart};

use crate::asking::{Gotten, ask};
use crate::beginning::run_begun;
use crate::costs::{after_pause, after_search};
use crate::finishing::finish;
use crate::gates::Gate;
use crate::looping::run_own;
use crate::scratch::Tools;
use crate::stacks::Level;
use crate::workers::Worker;
use kt_calls::{Claim, Run};
use kt_law::Stand;
use std::sync::Wait;

// The worker behind the last one that was asked.
fn next_victim(last: u32, workers: u32) -> u32
    requires { 0 < workers }
    ensures { result < workers }
{
    if last < workers - 1 { last + 1 } else { 0 }
}

/// Starts a task that was given, and runs its body; where the run stops by now, the body halts before its first operation.
fn run_given<'a, R: Run, G: Gate, W: Wait>(
    rt: &W,
    mut worker: Worker<'a, R>,
    tools: &mut Tools,
    gate: &G,
    at: u32,
) -> (Worker<'a, R>, bool)
    requires given { IsAboutToStart (R.view worker.run) worker.program.now worker.tally
        tools.old.stack.levels at }
    requires accepted { IsAccepted worker.program.now }
    requires firsts { HasFirsts worker.program.now.families worker.firsts.now }
    requires room { HasRoom worker.program.now tools.old }
    ensures turns { Turns (R.view worker.entry.run) (R.view result.0.run) worker.entry.program.now
        result.0.tally tools.new.stack.levels result.1 }
    ensures room { HasRoom worker.entry.program.now tools.new }
    ensures program { (result.0.program.now ≡ worker.entry.program.now)
        × (result.0.firsts.now ≡ worker.entry.firsts.now) }
{
    worker.run.start(at);
    if worker.run.stopped() {
        return (worker, false);
    }
    run_begun(rt, worker, tools, gate, at, false)
}

/// Asks for work once, and runs what it is given.
fn search<'a, R: Run, G: Gate, W: Wait>(
    rt: &W,
    worker: Worker<'a, R>,
    tools: &mut Tools,
    gate: &G,
) -> (Worker<'a, R>, bool)
    requires calm { Calm (R.view worker.run) worker.program.now worker.tally
        tools.old.stack.levels }
    requires accepted { IsAccepted worker.program.now }
    requires firsts { HasFirsts worker.program.now.families worker.firsts.now }
    requires room { HasRoom worker.program.now tools.old }
    ensures turns { Turns (R.view worker.entry.run) (R.view result.0.run) worker.entry.program.now
        result.0.tally tools.new.stack.levels result.1 }
    ensures room { HasRoom worker.entry.program.now tools.new }
    ensures program { (result.0.program.now ≡ worker.entry.program.now)
        × (result.0.firsts.now ≡ worker.entry.firsts.now) }
{
    let Worker {
        mut run,
        program,
        firsts,
        pause,
        mut tally,
    } = worker;
    let victim = next_victim(tally.victim, run.workers());
    tally.victim = victim;
    tools.scan.restart();
    let found = ask(rt, &mut run, &mut tools.scan, victim, pause);
    tools.owed = after_search(found, tools.scan.seen().len(), run.workers());
    let mut worker = Worker {
        run,
        program,
        firsts,
        pause,
        tally,
    };
    match found {
        Gotten::Nothing => {
            pause.snooze();
            (worker, true)
        }
        Gotten::Task(at) => {
            pause.reset();
            run_given(rt, worker, tools, gate, at)
        }
        Gotten::Piece(at, piece) => {
            pause.reset();
            worker.run.take_piece(at, piece);
            run_own(rt, worker, at)
        }
    }
}

/// Pauses where the last search is not paid for yet. Else it asks for work once.
fn steal<'a, R: Run, G: Gate, W: Wait>(
    rt: &W,
    worker: Worker<'a, R>,
    tools: &mut Tools,
    gate: &G,
) -> (Worker<'a, R>, bool)
    requires calm { Calm (R.view worker.run) worker.program.now worker.tally
        tools.old.stack.levels }
    requires accepted { IsAccepted worker.program.now }
    requires firsts { HasFirsts worker.program.now.families worker.firsts.now }
    requires room { HasRoom worker.program.now tools.old }
    ensures turns { Turns (R.view worker.entry.run) (R.view result.0.run) worker.entry.program.now
        result.0.tally tools.new.stack.levels result.1 }
    ensures room { HasRoom worker.entry.program.now tools.new }
    ensures program { (result.0.program.now ≡ worker.entry.program.now)
        × (result.0.firsts.now ≡ worker.entry.firsts.now) }
{
    if tools.owed == 0 {
        return search(rt, worker, tools, gate);
    }
    tools.owed = after_pause(tools.owed);
    worker.pause.snooze();
    (worker, true)
}

/// Pauses the first times, since whoever took an entry may be about to finish it, and a search for work goes through all records of a
/// worker. After that it asks for work once.
fn pause_or_steal<'a, R: Run, G: Gate, W: Wait>(
    rt: &W,
    worker: Worker<'a, R>,
    tools: &mut Tools,
    gate: &G,
) -> (Worker<'a, R>, bool)
    requires calm { Calm (R.view worker.run) worker.program.now worker.tally
        tools.old.stack.levels }
    requires accepted { IsAccepted worker.program.now }
    requires firsts { HasFirsts worker.program.now.families worker.firsts.now }
    requires room { HasRoom worker.program.now tools.old }
    ensures turns { Turns (R.view worker.entry.run) (R.view result.0.run) worker.entry.program.now
        result.0.tally tools.new.stack.levels result.1 }
    ensures room { HasRoom worker.entry.program.now tools.new }
    ensures program { (result.0.program.now ≡ worker.entry.program.now)
        × (result.0.firsts.now ≡ worker.entry.firsts.now) }
{
    if worker.pause.is_completed() {
        return steal(rt, worker, tools, gate);
    }
    worker.pause.snooze();
    (worker, true)
}

/// Runs the next entry of the topmost frame, or goes past it. Where it was stolen and is not finished, the worker asks for work.
fn run_entry<'a, R: Run, G: Gate, W: Wait>(
    rt: &W,
    mut worker: Worker<'a, R>,
    tools: &mut Tools,
    gate: &G,
    level: Level,
) -> (Worker<'a, R>, bool)
    requires calm { Calm (R.view worker.run) worker.program.now worker.tally
        (level ∷ tools.old.stack.levels) }
    requires left { level.next < level.count }
    requires accepted { IsAccepted worker.program.now }
    requires firsts { HasFirsts worker.program.now.families worker.firsts.now }
    requires room { HasRoom worker.program.now tools.old }
    ensures turns { Turns (R.view worker.entry.run) (R.view result.0.run) worker.entry.program.now
        result.0.tally tools.new.stack.levels result.1 }
    ensures room { HasRoom worker.entry.program.now tools.new }
    ensures program { (result.0.program.now ≡ worker.entry.program.now)
        × (result.0.firsts.now ≡ worker.entry.firsts.now) }
{
    let at = worker.tally.base + level.first + level.next;
    if level.stolen {
        return wait_for(rt, worker, tools, gate, level, at);
    }
    match worker.run.claim_own(at) {
        Claim::Won => {
            tools.stack.push(level);
            run_begun(rt, worker, tools, gate, at, true)
        }
        Claim::Stolen(_) => wait_for(rt, worker, tools, gate, level, at),
    }
}

/// Looks at a stolen entry: goes past it where it is finished, and else waits for it or asks for work.
fn wait_for<'a, R: Run, G: Gate, W: Wait>(
    rt: &W,
    mut worker: Worker<'a, R>,
    tools: &mut Tools,
    gate: &G,
    level: Level,
    at: u32,
) -> (Worker<'a, R>, bool)
    requires calm { Calm (R.view worker.run) worker.program.now worker.tally
        (level ∷ tools.old.stack.levels) }
    requires left { level.next < level.count }
    requires at { at ≡ worker.tally.base + level.first + level.next }
    requires accepted { IsAccepted worker.program.now }
    requires firsts { HasFirsts worker.program.now.families worker.firsts.now }
    requires room { HasRoom worker.program.now tools.old }
    ensures turns { Turns (R.view worker.entry.run) (R.view result.0.run) worker.entry.program.now
        result.0.tally tools.new.stack.levels result.1 }
    ensures room { HasRoom worker.entry.program.now tools.new }
    ensures program { (result.0.program.now ≡ worker.entry.program.now)
        × (result.0.firsts.now ≡ worker.entry.firsts.now) }
{
    match worker.run.stand(at).stand {
        Stand::Finished => {
            worker.pause.reset();
            tools.stack.push(Level {
                next: level.next + 1,
                stolen: false,
                ..level
            });
            (worker, true)
        }
        Stand::Empty | Stand::Unclaimed | Stand::Given(_) | Stand::Running(_) => {
            tools.stack.push(Level {
                stolen: true,
                ..level
            });
            pause_or_steal(rt, worker, tools, gate)
        }
    }
}

/// Looks at a loop that has begun: finishes it where no index of it is left, and else waits for whoever has indexes of it, or asks for work.
fn wait_for_indexes<'a, R: Run, G: Gate, W: Wait>(
    rt: &W,
    mut worker: Worker<'a, R>,
    tools: &mut Tools,
    gate: &G,
    level: Level,
) -> (Worker<'a, R>, bool)
    requires calm { Calm (R.view worker.run) worker.program.now worker.tally
        (level ∷ tools.old.stack.levels) }
    requires looping { level.looping ≡ true }
    requires accepted { IsAccepted worker.program.now }
    requires firsts { HasFirsts worker.program.now.families worker.firsts.now }
    requires room { HasRoom worker.program.now tools.old }
    ensures turns { Turns (R.view worker.entry.run) (R.view result.0.run) worker.entry.program.now
        result.0.tally tools.new.stack.levels result.1 }
    ensures room { HasRoom worker.entry.program.now tools.new }
    ensures program { (result.0.program.now ≡ worker.entry.program.now)
        × (result.0.firsts.now ≡ worker.entry.firsts.now) }
{
    if worker.run.left(level.at) == 0 {
        worker.pause.reset();
        return (finish(worker, &mut tools.stack, level), true);
    }
    tools.stack.push(level);
    pause_or_steal(rt, worker, tools, gate)
}

/// Where no frame is under way: the worker has come to its end where `main` is finished, and else asks for work once.
fn idle<'a, R: Run, G: Gate, W: Wait>(
    rt: &W,
    mut worker: Worker<'a, R>,
    tools: &mut Tools,
    gate: &G,
) -> (Worker<'a, R>, bool)
    requires calm { Calm (R.view worker.run) worker.program.now worker.tally
        tools.old.stack.levels }
    requires none { tools.old.stack.levels ≡ [] }
    requires accepted { IsAccepted worker.program.now }
    requires firsts { HasFirsts worker.program.now.families worker.firsts.now }
    requires room { HasRoom worker.program.now tools.old }
    ensures turns { Turns (R.view worker.entry.run) (R.view result.0.run) worker.entry.program.now
        result.0.tally tools.new.stack.levels result.1 }
    ensures room { HasRoom worker.entry.program.now tools.new }
    ensures program { (result.0.program.now ≡ worker.entry.program.now)
        × (result.0.firsts.now ≡ worker.entry.firsts.now) }
{
    match worker.run.stand(0).stand {
        Stand::Finished => (worker, false),
        Stand::Empty | Stand::Unclaimed | Stand::Given(_) | Stand::Running(_) => {
            steal(rt, worker, tools, gate)
        }
    }
}

/// Goes on with the topmost frame.
fn go_on<'a, R: Run, G: Gate, W: Wait>(
    rt: &W,
    worker: Worker<'a, R>,
    tools: &mut Tools,
    gate: &G,
) -> (Worker<'a, R>, bool)
    requires calm { Calm (R.view worker.run) worker.program.now worker.tally
        tools.old.stack.levels }
    requires accepted { IsAccepted worker.program.now }
    requires firsts { HasFirsts worker.program.now.families worker.firsts.now }
    requires room { HasRoom worker.program.now tools.old }
    ensures turns { Turns (R.view worker.entry.run) (R.view result.0.run) worker.entry.program.now
        result.0.tally tools.new.stack.levels result.1 }
    ensures room { HasRoom worker.entry.program.now tools.new }
    ensures program { (result.0.program.now ≡ worker.entry.program.now)
        × (result.0.firsts.now ≡ worker.entry.firsts.now) }
{
    match tools.stack.pop() {
        None => idle(rt, worker, tools, gate),
        Some(level) => {
            if level.looping {
                wait_for_indexes(rt, worker, tools, gate, level)
            } else if level.next < level.count {
                run_entry(rt, worker, tools, gate, level)
            } else {
                (finish(worker, &mut tools.stack, level), true)
            }
        }
    }
}

/// One turn: false where the worker has come to its end.
pub fn turn<'a, R: Run, G: Gate, W: Wait>(
    rt: &W,
    mut worker: Worker<'a, R>,
    tools: &mut Tools,
    gate: &G,
) -> (Worker<'a, R>, bool)
    requires calm { Calm (R.view worker.run) worker.program.now worker.tally
        tools.old.stack.levels }
    requires accepted { IsAccepted worker.program.now }
    requires firsts { HasFirsts worker.program.now.families worker.firsts.now }
    requires room { HasRoom worker.program.now tools.old }
    ensures turns { Turns (R.view worker.entry.run) (R.view result.0.run) worker.entry.program.now
        result.0.tally tools.new.stack.levels result.1 }
    ensures room { HasRoom worker.entry.program.now tools.new }
    ensures program { (result.0.program.now ≡ worker.entry.program.now)
        × (result.0.firsts.now ≡ worker.entry.firsts.now) }
{
    if worker.run.stopped() {
        return (worker, false);
    }
    go_on(rt, worker, tools, gate)
}
