// A worker that is driven step by step. A step that does not fit the stage at which the worker stands does nothing.
ghost use Rattle.std.specs.Prelude.{◌≡◌, [], Some};
ghost use Rattle.kt_rule.specs.declared.views.View.{View};
ghost use Rattle.kt_worker.specs.Levels.{Calm, Turns};
ghost use Rattle.kt_pool_trials.specs.Driven.{IsDriven, IsEquipped, IsUnmoved, stage_of};

use crate::recorders::{Log, Recorder};
use crate::stages::Stage;
use arrayvec::ArrayVec;
use crossbeam_utils::Backoff;
use kt_calls::{Answer, Lead, Run};
use kt_hands::{Hand, Home};
use kt_prog::Program;
use kt_rule::{RunTable, Seat};
use kt_worker::{NoGate, Tools, Worker, first_turn, run_begun, tally_of};
use std::marker::PhantomData;
use std::sync::Wait;

/// A worker, the room that it takes, and where it stands.
pub struct Driven<'a, 't, H: Home> {
    pub worker: Worker<'a, Recorder<'t, H>>,
    pub tools: Tools,
    pub stage: Stage,
}

/// What all workers of a run share.
#[derive(Clone, Copy)]
pub struct Common<'a, 't> {
    pub table: &'t RunTable,
    pub program: &'a Program,
    pub firsts: &'a [u32],
    pub pause: &'a Backoff,
}

/// A worker that stands there.
pub fn stands<'a, 't, H: Home>(
    worker: Worker<'a, Recorder<'t, H>>,
    tools: Tools,
    stage: Stage,
) -> Driven<'a, 't, H>
    requires { IsDriven worker.run.hand.seat.token.me.0 worker.program.now worker.firsts.now
        worker.tally tools stage }
    ensures { IsDriven result.worker.run.hand.seat.token.me.0 result.worker.program.now
        result.worker.firsts.now result.worker.tally result.tools result.stage }
{
    Driven {
        worker,
        tools,
        stage,
    }
}

/// The worker of a seat that has made no step.
pub fn hired<'a, 't, H: Home>(common: Common<'a, 't>, seat: Seat, tools: Tools) -> Driven<'a, 't, H>
    requires seat { IsUnmoved common.table.now common.program.now seat }
    requires home { H.table ≡ Some common.table.now.table.shared.table_id }
    requires equipped { IsEquipped common.program.now common.firsts.now tools }
    requires empty { tools.stack.levels ≡ [] }
    ensures { IsDriven result.worker.run.hand.seat.token.me.0 result.worker.program.now
        result.worker.firsts.now result.worker.tally result.tools result.stage }
{
    let hand = Hand {
        table: common.table,
        seat,
        of: PhantomData,
    };
    let tally = tally_of(hand.worker());
    let run = Recorder {
        hand,
        log: ArrayVec::new(),
    };
    let worker = Worker {
        run,
        program: common.program,
        firsts: common.firsts,
        pause: common.pause,
        tally,
    };
    stands(worker, tools, Stage::New)
}

/// The events of a worker that leaves.
pub fn left<'a, 't, H: Home>(driven: Driven<'a, 't, H>) -> Log {
    let Driven {
        worker: Worker {
            run: Recorder { hand, log },
            program: _,
            firsts: _,
            pause: _,
            tally: _,
        },
        tools: _,
        stage: _,
    } = driven;
    let _seat = hand.into_seat();
    log
}

// A worker after a turn, or a part of one.
fn turned<'a, 't, H: Home>(
    worker: Worker<'a, Recorder<'t, H>>,
    tools: Tools,
    more: bool,
) -> Driven<'a, 't, H>
    requires equipped { IsEquipped worker.program.now worker.firsts.now tools }
    requires turns { (v : View)
        × Turns v worker.run.hand.seat.token.me.0 worker.program.now worker.tally tools.stack.levels
        more }
    ensures { IsDriven result.worker.run.hand.seat.token.me.0 result.worker.program.now
        result.worker.firsts.now result.worker.tally result.tools result.stage }
{
    if more {
        return stands(worker, tools, Stage::Resting);
    }
    stands(worker, tools, Stage::Over)
}

/// The first turn.
pub fn begins<'a, 't, H: Home, W: Wait>(rt: &W, driven: Driven<'a, 't, H>) -> Driven<'a, 't, H>
    requires { IsDriven driven.worker.run.hand.seat.token.me.0 driven.worker.program.now
        driven.worker.firsts.now driven.worker.tally driven.tools driven.stage }
    ensures { IsDriven result.worker.run.hand.seat.token.me.0 result.worker.program.now
        result.worker.firsts.now result.worker.tally result.tools result.stage }
{
    let Driven {
        worker,
        mut tools,
        stage,
    } = driven;
    match stage {
        Stage::New => {
            let (worker, more) = first_turn(rt, worker, &mut tools, &NoGate);
            turned(worker, tools, more)
        }
        _ => stands(worker, tools, stage),
    }
}

// The request of a worker that is between two turns.
fn posts<'a, 't, H: Home>(
    mut worker: Worker<'a, Recorder<'t, H>>,
    tools: Tools,
) -> Driven<'a, 't, H>
    requires equipped { IsEquipped worker.program.now worker.firsts.now tools }
    requires calm { Calm worker.run.hand.seat.token.me.0 worker.program.now worker.tally
        tools.stack.levels }
    ensures { IsDriven result.worker.run.hand.seat.token.me.0 result.worker.program.now
        result.worker.firsts.now result.worker.tally result.tools result.stage }
{
    worker.run.post(0);
    stands(worker, tools, Stage::Asking)
}

/// Asks at worker 0.
pub fn asks<'a, 't, H: Home>(driven: Driven<'a, 't, H>) -> Driven<'a, 't, H>
    requires { IsDriven driven.worker.run.hand.seat.token.me.0 driven.worker.program.now
        driven.worker.firsts.now driven.worker.tally driven.tools driven.stage }
    ensures { IsDriven result.worker.run.hand.seat.token.me.0 result.worker.program.now
        result.worker.firsts.now result.worker.tally result.tools result.stage }
{
    let Driven {
        worker,
        tools,
        stage,
    } = driven;
    match stage {
        Stage::New => posts(worker, tools),
        Stage::Resting => posts(worker, tools),
        _ => stands(worker, tools, stage),
    }
}

/// Tries to lead those that ask there.
pub fn leads<'a, 't, H: Home>(driven: Driven<'a, 't, H>) -> Driven<'a, 't, H>
    requires { IsDriven driven.worker.run.hand.seat.token.me.0 driven.worker.program.now
        driven.worker.firsts.now driven.worker.tally driven.tools driven.stage }
    ensures { IsDriven result.worker.run.hand.seat.token.me.0 result.worker.program.now
        result.worker.firsts.now result.worker.tally result.tools result.stage }
{
    let Driven {
        mut worker,
        tools,
        stage,
    } = driven;
    match stage {
        Stage::Asking => match worker.run.lead(0) {
            Lead::Won => stands(worker, tools, Stage::Leading),
            Lead::Busy(_) => stands(worker, tools, Stage::Asking),
        },
        _ => stands(worker, tools, stage),
    }
}

/// Serves them.
pub fn serves<'a, 't, H: Home>(driven: Driven<'a, 't, H>) -> Driven<'a, 't, H>
    requires { IsDriven driven.worker.run.hand.seat.token.me.0 driven.worker.program.now
        driven.worker.firsts.now driven.worker.tally driven.tools driven.stage }
    ensures { IsDriven result.worker.run.hand.seat.token.me.0 result.worker.program.now
        result.worker.firsts.now result.worker.tally result.tools result.stage }
{
    let Driven {
        mut worker,
        mut tools,
        stage,
    } = driven;
    match stage {
        Stage::Leading => {
            worker.run.serve(0, &mut tools.scan);
            stands(worker, tools, Stage::Asking)
        }
        _ => stands(worker, tools, stage),
    }
}

/// Looks for the answer.
pub fn looks<'a, 't, H: Home>(driven: Driven<'a, 't, H>) -> Driven<'a, 't, H>
    requires { IsDriven driven.worker.run.hand.seat.token.me.0 driven.worker.program.now
        driven.worker.firsts.now driven.worker.tally driven.tools driven.stage }
    ensures { IsDriven result.worker.run.hand.seat.token.me.0 result.worker.program.now
        result.worker.firsts.now result.worker.tally result.tools result.stage }
{
    let Driven {
        mut worker,
        tools,
        stage,
    } = driven;
    match stage {
        Stage::Asking => {
            let answer = worker.run.look();
            let stage = stage_of(answer);
            stands(worker, tools, stage)
        }
        _ => stands(worker, tools, stage),
    }
}

// Where a worker stands that was answered so.
fn stage_of(answer: Answer) -> Stage
    ensures { result ≡ stage_of answer }
{
    match answer {
        Answer::NotYet => Stage::Asking,
        Answer::Withdrawn => Stage::Over,
        Answer::Failed => Stage::Resting,
        Answer::Task(at) => Stage::Given(at),
        Answer::Piece(at, pair) => Stage::Piece(at, pair),
    }
}

/// Starts the task that it was given.
pub fn starts<'a, 't, H: Home>(driven: Driven<'a, 't, H>) -> Driven<'a, 't, H>
    requires { IsDriven driven.worker.run.hand.seat.token.me.0 driven.worker.program.now
        driven.worker.firsts.now driven.worker.tally driven.tools driven.stage }
    ensures { IsDriven result.worker.run.hand.seat.token.me.0 result.worker.program.now
        result.worker.firsts.now result.worker.tally result.tools result.stage }
{
    let Driven {
        mut worker,
        tools,
        stage,
    } = driven;
    match stage {
        Stage::Given(at) => {
            worker.run.start(at);
            stands(worker, tools, Stage::Begun(at, false))
        }
        _ => stands(worker, tools, stage),
    }
}

/// Runs the body of the task that it has begun.
pub fn runs<'a, 't, H: Home, W: Wait>(rt: &W, driven: Driven<'a, 't, H>) -> Driven<'a, 't, H>
    requires { IsDriven driven.worker.run.hand.seat.token.me.0 driven.worker.program.now
        driven.worker.firsts.now driven.worker.tally driven.tools driven.stage }
    ensures { IsDriven result.worker.run.hand.seat.token.me.0 result.worker.program.now
        result.worker.firsts.now result.worker.tally result.tools result.stage }
{
    let Driven {
        worker,
        mut tools,
        stage,
    } = driven;
    match stage {
        Stage::Begun(at, own) => {
            let (worker, more) = run_begun(rt, worker, &mut tools, &NoGate, at, own);
            turned(worker, tools, more)
        }
        _ => stands(worker, tools, stage),
    }
}
