// A worker from its first step to its last.
ghost use Rattle.std.specs.Prelude.{◌≡◌, ◌≤◌, ◌*◌, ◌==◌, [], None, if◌then◌else◌};
ghost use Rattle.kt_intervals.specs.Programs.{HasFirsts};
ghost use Rattle.kt_prog.specs.Accepted.{IsAccepted};
ghost use Rattle.kt_words.specs.declared.layouts.TheConstants.{RECORDS};
ghost use Rattle.kt_worker.specs.Levels.{Calm, Ends, Extends, Turns};
ghost use Rattle.kt_worker.specs.Programs.{HasRoom};
ghost use Rattle.kt_worker.specs.Working.{IsFresh};

use crate::beginning::run_begun;
use crate::gates::Gate;
use crate::scratch::{Scratch, Tools};
use crate::tallies::Tally;
use crate::turns::turn;
use crate::workers::Worker;
use crossbeam_utils::Backoff;
use kt_calls::{Claim, Run};
use kt_prog::{FaultAt, Program};
use kt_words::RECORDS;
use std::sync::Wait;

/// A seat whose worker has ended, and the first fault that it met.
pub struct Worked<R: Run> {
    pub run: R,
    pub fault: Option<FaultAt>,
}

// How many records are used before a worker begins: that of `main` in the first region.
fn used_at_first(worker: u32) -> u32
    ensures { result ≡ (if worker == 0 then 1 else 0) }
{
    if worker == 0 { 1 } else { 0 }
}

/// The numbers of a worker before its first turn.
pub fn tally_of(worker: u32) -> Tally
    requires { worker ≤ 8 }
    ensures { result
        ≡ record {
          base = RECORDS * worker;
          used = (if worker == 0 then 1 else 0);
          begun = 0;
          fault = None;
          victim = worker;
        } }
{
    Tally {
        base: RECORDS * worker,
        used: used_at_first(worker),
        begun: 0,
        fault: None,
        victim: worker,
    }
}

/// The first turn: the worker in whose region `main` lies claims it and runs its body.
pub fn first_turn<'a, R: Run, G: Gate, W: Wait>(
    rt: &W,
    mut worker: Worker<'a, R>,
    tools: &mut Tools,
    gate: &G,
) -> (Worker<'a, R>, bool)
    requires calm { Calm (R.view worker.run) worker.program.now worker.tally [] }
    requires fresh { IsFresh (R.view worker.run) worker.program.now }
    requires empty { tools.old.stack.levels ≡ [] }
    requires accepted { IsAccepted worker.program.now }
    requires firsts { HasFirsts worker.program.now.families worker.firsts.now }
    requires room { HasRoom worker.program.now tools.old }
    ensures turns { Turns (R.view worker.entry.run) (R.view result.0.run) worker.entry.program.now
        result.0.tally tools.new.stack.levels result.1 }
    ensures room { HasRoom worker.entry.program.now tools.new }
    ensures program { (result.0.program.now ≡ worker.entry.program.now)
        × (result.0.firsts.now ≡ worker.entry.firsts.now) }
{
    if worker.tally.base != 0 {
        return (worker, true);
    }
    match worker.run.claim_own(0) {
        Claim::Won => run_begun(rt, worker, tools, gate, 0, false),
        Claim::Stolen(_) => (worker, true),
    }
}

fn let_go<R: Run>(worker: Worker<R>) -> Worked<R>
    ensures { (result.run ≡ worker.entry.run) × (result.fault ≡ worker.entry.tally.fault) }
{
    let Worker {
        run,
        program: _,
        firsts: _,
        pause: _,
        tally,
    } = worker;
    Worked {
        run,
        fault: tally.fault,
    }
}

/// Works until `main` is known to be finished, or that the run stops.
pub fn work<R: Run, G: Gate, W: Wait>(
    rt: &W,
    run: R,
    program: &Program,
    gate: &G,
    scratch: &mut Scratch,
) -> Worked<R>
    requires fresh { IsFresh (R.view run) program.now }
    requires accepted { IsAccepted program.now }
    requires empty { scratch.old.tools.stack.levels ≡ [] }
    requires firsts { HasFirsts program.now.families scratch.old.firsts.items }
    requires room { HasRoom program.now scratch.old.tools }
    ensures seat { Extends (R.view run) (R.view result.run) }
    ensures ends { Ends (R.view result.run) result.fault }
{
    let Scratch { tools, firsts } = scratch;
    let pause = Backoff::new();
    let tally = tally_of(run.worker());
    let worker = Worker {
        run,
        program,
        firsts: firsts.as_slice(),
        pause: &pause,
        tally,
    };
    let (mut worker, mut more) = first_turn(rt, worker, tools, gate);
    for _ in rt.forever() {
        if !more {
            return let_go(worker);
        }
        let (next, goes_on) = turn(rt, worker, tools, gate);
        worker = next;
        more = goes_on;
    }
    unreachable!()
}
