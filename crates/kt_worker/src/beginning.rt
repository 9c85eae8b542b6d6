// A task from its beginning to the end of its body.
ghost use Rattle.std.specs.Prelude.{◌≡◌, ◌+◌, false};
ghost use Rattle.kt_intervals.specs.Programs.{HasFirsts};
ghost use Rattle.kt_prog.specs.Accepted.{IsAccepted};
ghost use Rattle.kt_prog.specs.Operations.{is_loop_at};
ghost use Rattle.kt_tasks.specs.Hands.{IsCallIn};
ghost use Rattle.kt_worker.specs.Hands.{is_halted};
ghost use Rattle.kt_worker.specs.Levels.{HasBegun, Turns};
ghost use Rattle.kt_worker.specs.Programs.{HasRoom};

use crate::body::{Gone, Start, go};
use crate::costs::after_task;
use crate::gates::Gate;
use crate::looping::run_loop;
use crate::scratch::Tools;
use crate::stacks::Level;
use crate::tallies::Tally;
use crate::workers::Worker;
use kt_body::Ended;
use kt_calls::Run;
use kt_prog::{Call, Form, Program};
use std::marker::Brand;
use std::sync::Wait;

/// Whether the run of a body halted.
pub fn is_halted(ended: Ended) -> bool
    ensures { result ≡ is_halted ended }
{
    matches!(ended, Ended::Halted)
}

fn is_loop(program: &Program, call: &Call) -> bool
    ensures { result ≡ is_loop_at program.now call.now.task }
{
    matches!(call.form(program), Form::Loop)
}

/// Runs the body of the task that was begun last. False where the run stops.
pub fn run_begun<'a, R: Run, G: Gate, W: Wait>(
    rt: &W,
    mut worker: Worker<'a, R>,
    tools: &mut Tools,
    gate: &G,
    at: u32,
    own: bool,
) -> (Worker<'a, R>, bool)
    requires begun { HasBegun (R.view worker.run) worker.program.now worker.tally
        tools.old.stack.levels at own }
    requires accepted { IsAccepted worker.program.now }
    requires firsts { HasFirsts worker.program.now.families worker.firsts.now }
    requires room { HasRoom worker.program.now tools.old }
    ensures turns { Turns (R.view worker.entry.run) (R.view result.0.run) worker.entry.program.now
        result.0.tally tools.new.stack.levels result.1 }
    ensures room { HasRoom worker.entry.program.now tools.new }
    ensures program { (result.0.program.now ≡ worker.entry.program.now)
        × (result.0.firsts.now ≡ worker.entry.firsts.now) }
{
    let number = worker.run.number_of(at);
    gate.started(worker.run.worker(), number);
    let call = worker.run.call_of(at);
    if is_loop(worker.program, &call) {
        return run_loop(rt, worker, tools, &call, at, own);
    }
    run_whole(worker, tools, &call, at, own)
}

/// Runs the body of the task that was begun last, which is no loop's. False where the run stops.
fn run_whole<'a, R: Run>(
    worker: Worker<'a, R>,
    tools: &mut Tools,
    call: &Call,
    at: u32,
    own: bool,
) -> (Worker<'a, R>, bool)
    requires begun { HasBegun (R.view worker.run) worker.program.now worker.tally
        tools.old.stack.levels at own }
    requires accepted { IsAccepted worker.program.now }
    requires call { IsCallIn (R.view worker.run) at call.now }
    requires plain { is_loop_at worker.program.now call.now.task ≡ false }
    requires firsts { HasFirsts worker.program.now.families worker.firsts.now }
    requires room { HasRoom worker.program.now tools.old }
    ensures turns { Turns (R.view worker.entry.run) (R.view result.0.run) worker.entry.program.now
        result.0.tally tools.new.stack.levels result.1 }
    ensures room { HasRoom worker.entry.program.now tools.new }
    ensures program { (result.0.program.now ≡ worker.entry.program.now)
        × (result.0.firsts.now ≡ worker.entry.firsts.now) }
{
    let Worker {
        run,
        program,
        firsts,
        pause,
        tally,
    } = worker;
    let first = tally.used;
    let begun = tally.begun + 1;
    let start = Start {
        program,
        firsts,
        call,
        parent: at,
        first,
        frame: begun,
    };
    let Gone {
        run,
        ended,
        forks,
        elements,
    } = go::<R, Brand>(run, start, &mut tools.tiles);
    tools.owed = after_task(tools.owed, elements);
    if is_halted(ended) {
        let worker = Worker {
            run,
            program,
            firsts,
            pause,
            tally,
        };
        return (worker, false);
    }
    let used = first + forks;
    let worker = Worker {
        run,
        program,
        firsts,
        pause,
        tally: Tally {
            used,
            begun,
            ..tally
        },
    };
    tools.stack.push(Level {
        at,
        first,
        count: forks,
        next: 0,
        own,
        stolen: false,
        looping: false,
        ended,
    });
    (worker, true)
}
