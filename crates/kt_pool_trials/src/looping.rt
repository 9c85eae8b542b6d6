// What a driven worker does with loops.
ghost use Rattle.std.specs.Prelude.{◌≡◌, ◌≤◌, ◌∷◌};
ghost use Rattle.kt_prog.specs.Operations.{is_loop_at};
ghost use Rattle.kt_worker.specs.Levels.{Calm, HasBegun};
ghost use Rattle.kt_worker.specs.Looping.{HasInterval};
ghost use Rattle.kt_worker.specs.Turns.{HasPiece};
ghost use Rattle.kt_pool_trials.specs.Driven.{HasChunk, IsDriven, IsEquipped};

use crate::driven::{Driven, stands};
use crate::recorders::{Recorder, keep_cut, split};
use crate::stages::Stage;
use kt_calls::{Run, Taken};
use kt_hands::Home;
use kt_intervals::{Halfway, run_taken};
use kt_loops::Divided;
use kt_prog::{Call, Form, Program};
use kt_words::Pair;
use kt_worker::{Level, Tools, Worker, open_loop};

fn is_loop(program: &Program, call: &Call) -> bool
    ensures { result ≡ is_loop_at program.now call.now.task }
{
    matches!(call.form(program), Form::Loop)
}

fn opens_now<'a, 't, H: Home>(
    mut worker: Worker<'a, Recorder<'t, H>>,
    mut tools: Tools,
    at: u32,
    own: bool,
) -> Driven<'a, 't, H>
    requires equipped { IsEquipped worker.program.now worker.firsts.now tools }
    requires begun { HasBegun worker.run.hand.seat.token.me.0 worker.program.now worker.tally
        tools.stack.levels at own }
    ensures { IsDriven result.worker.run.hand.seat.token.me.0 result.worker.program.now
        result.worker.firsts.now result.worker.tally result.tools result.stage }
{
    let call = worker.run.call_of(at);
    if !is_loop(worker.program, &call) {
        return stands(worker, tools, Stage::Begun(at, own));
    }
    let (worker, opened) = open_loop(worker, &mut tools, &call, at, own);
    if opened {
        return stands(worker, tools, Stage::Looping(at));
    }
    stands(worker, tools, Stage::Over)
}

/// Opens the loop that it has begun, and runs none of its indexes yet.
pub fn opens<'a, 't, H: Home>(driven: Driven<'a, 't, H>) -> Driven<'a, 't, H>
    requires { IsDriven driven.worker.run.hand.seat.token.me.0 driven.worker.program.now
        driven.worker.firsts.now driven.worker.tally driven.tools driven.stage }
    ensures { IsDriven result.worker.run.hand.seat.token.me.0 result.worker.program.now
        result.worker.firsts.now result.worker.tally result.tools result.stage }
{
    let Driven {
        worker,
        tools,
        stage,
    } = driven;
    match stage {
        Stage::Begun(at, own) => opens_now(worker, tools, at, own),
        _ => stands(worker, tools, stage),
    }
}

fn counts_top<'a, 't, H: Home>(
    mut worker: Worker<'a, Recorder<'t, H>>,
    mut tools: Tools,
    level: Level,
    at: u32,
) -> Driven<'a, 't, H>
    requires equipped { IsEquipped worker.program.now worker.firsts.now tools }
    requires interval { HasInterval worker.run.hand.seat.token.me.0 worker.program.now worker.tally
        (level ∷ tools.stack.levels) at }
    ensures { IsDriven result.worker.run.hand.seat.token.me.0 result.worker.program.now
        result.worker.firsts.now result.worker.tally result.tools result.stage }
{
    if level.looping {
        worker.run.left(level.at);
        tools.stack.push(level);
        return stands(worker, tools, Stage::Looping(at));
    }
    tools.stack.push(level);
    stands(worker, tools, Stage::Looping(at))
}

fn counts_now<'a, 't, H: Home>(
    worker: Worker<'a, Recorder<'t, H>>,
    mut tools: Tools,
    at: u32,
) -> Driven<'a, 't, H>
    requires equipped { IsEquipped worker.program.now worker.firsts.now tools }
    requires interval { HasInterval worker.run.hand.seat.token.me.0 worker.program.now worker.tally
        tools.stack.levels at }
    ensures { IsDriven result.worker.run.hand.seat.token.me.0 result.worker.program.now
        result.worker.firsts.now result.worker.tally result.tools result.stage }
{
    match tools.stack.pop() {
        None => stands(worker, tools, Stage::Looping(at)),
        Some(level) => counts_top(worker, tools, level, at),
    }
}

/// Looks how many indexes are left of the loop of its topmost frame, while its own interval may have some.
pub fn counts<'a, 't, H: Home>(driven: Driven<'a, 't, H>) -> Driven<'a, 't, H>
    requires { IsDriven driven.worker.run.hand.seat.token.me.0 driven.worker.program.now
        driven.worker.firsts.now driven.worker.tally driven.tools driven.stage }
    ensures { IsDriven result.worker.run.hand.seat.token.me.0 result.worker.program.now
        result.worker.firsts.now result.worker.tally result.tools result.stage }
{
    let Driven {
        worker,
        tools,
        stage,
    } = driven;
    match stage {
        Stage::Looping(at) => counts_now(worker, tools, at),
        _ => stands(worker, tools, stage),
    }
}

fn takes_now<'a, 't, H: Home>(
    mut worker: Worker<'a, Recorder<'t, H>>,
    tools: Tools,
    at: u32,
    grain: u32,
) -> Driven<'a, 't, H>
    requires equipped { IsEquipped worker.program.now worker.firsts.now tools }
    requires interval { HasInterval worker.run.hand.seat.token.me.0 worker.program.now worker.tally
        tools.stack.levels at }
    requires some { 1 ≤ grain }
    ensures { IsDriven result.worker.run.hand.seat.token.me.0 result.worker.program.now
        result.worker.firsts.now result.worker.tally result.tools result.stage }
{
    match worker.run.chunk(grain) {
        Taken::Got(pair) => stands(worker, tools, Stage::Taken(at, pair)),
        Taken::Empty => stands(worker, tools, Stage::Resting),
        Taken::Moved(_) => stands(worker, tools, Stage::Looping(at)),
    }
}

/// Takes at most so many positions from the front of its own interval.
pub fn takes<'a, 't, H: Home>(driven: Driven<'a, 't, H>, grain: u32) -> Driven<'a, 't, H>
    requires driven { IsDriven driven.worker.run.hand.seat.token.me.0 driven.worker.program.now
        driven.worker.firsts.now driven.worker.tally driven.tools driven.stage }
    requires some { 1 ≤ grain }
    ensures { IsDriven result.worker.run.hand.seat.token.me.0 result.worker.program.now
        result.worker.firsts.now result.worker.tally result.tools result.stage }
{
    let Driven {
        worker,
        tools,
        stage,
    } = driven;
    match stage {
        Stage::Looping(at) => takes_now(worker, tools, at, grain),
        _ => stands(worker, tools, stage),
    }
}

fn retires_now<'a, 't, H: Home>(
    worker: Worker<'a, Recorder<'t, H>>,
    tools: Tools,
    at: u32,
    pair: Pair,
) -> Driven<'a, 't, H>
    requires equipped { IsEquipped worker.program.now worker.firsts.now tools }
    requires taken { HasChunk worker.run.hand.seat.token.me.0 worker.program.now worker.tally
        tools.stack.levels at pair }
    ensures { IsDriven result.worker.run.hand.seat.token.me.0 result.worker.program.now
        result.worker.firsts.now result.worker.tally result.tools result.stage }
{
    let Worker {
        run,
        program,
        firsts,
        pause,
        mut tally,
    } = worker;
    let fault = tally.fault.take();
    let Halfway { run, fault } = run_taken(Halfway { run, fault }, program, firsts, at, pair);
    tally.fault = fault;
    let worker = Worker {
        run,
        program,
        firsts,
        pause,
        tally,
    };
    stands(worker, tools, Stage::Looping(at))
}

/// Runs the indexes at the positions that it has taken, and retires them.
pub fn retires<'a, 't, H: Home>(driven: Driven<'a, 't, H>) -> Driven<'a, 't, H>
    requires { IsDriven driven.worker.run.hand.seat.token.me.0 driven.worker.program.now
        driven.worker.firsts.now driven.worker.tally driven.tools driven.stage }
    ensures { IsDriven result.worker.run.hand.seat.token.me.0 result.worker.program.now
        result.worker.firsts.now result.worker.tally result.tools result.stage }
{
    let Driven {
        worker,
        tools,
        stage,
    } = driven;
    match stage {
        Stage::Taken(at, pair) => retires_now(worker, tools, at, pair),
        _ => stands(worker, tools, stage),
    }
}

fn splits_now<'a, 't, H: Home>(
    mut worker: Worker<'a, Recorder<'t, H>>,
    tools: Tools,
) -> Driven<'a, 't, H>
    requires equipped { IsEquipped worker.program.now worker.firsts.now tools }
    requires calm { Calm worker.run.hand.seat.token.me.0 worker.program.now worker.tally
        tools.stack.levels }
    ensures { IsDriven result.worker.run.hand.seat.token.me.0 result.worker.program.now
        result.worker.firsts.now result.worker.tally result.tools result.stage }
{
    let cut = split(&mut worker.run.hand, 0);
    keep_cut(&mut worker.run.log, &cut);
    match cut {
        Divided::Got(at, pieces) => {
            let pair = pieces.as_slice()[0];
            stands(worker, tools, Stage::Piece(at, pair))
        }
        Divided::Short(_) => stands(worker, tools, Stage::Resting),
        Divided::Moved(_) => stands(worker, tools, Stage::Resting),
    }
}

/// Splits the interval of worker 0 for itself alone.
pub fn splits<'a, 't, H: Home>(driven: Driven<'a, 't, H>) -> Driven<'a, 't, H>
    requires { IsDriven driven.worker.run.hand.seat.token.me.0 driven.worker.program.now
        driven.worker.firsts.now driven.worker.tally driven.tools driven.stage }
    ensures { IsDriven result.worker.run.hand.seat.token.me.0 result.worker.program.now
        result.worker.firsts.now result.worker.tally result.tools result.stage }
{
    let Driven {
        worker,
        tools,
        stage,
    } = driven;
    match stage {
        Stage::New => splits_now(worker, tools),
        Stage::Resting => splits_now(worker, tools),
        _ => stands(worker, tools, stage),
    }
}

fn holds_now<'a, 't, H: Home>(
    mut worker: Worker<'a, Recorder<'t, H>>,
    tools: Tools,
    at: u32,
    pair: Pair,
) -> Driven<'a, 't, H>
    requires equipped { IsEquipped worker.program.now worker.firsts.now tools }
    requires piece { HasPiece worker.run.hand.seat.token.me.0 worker.program.now worker.tally
        tools.stack.levels at pair }
    ensures { IsDriven result.worker.run.hand.seat.token.me.0 result.worker.program.now
        result.worker.firsts.now result.worker.tally result.tools result.stage }
{
    worker.run.take_piece(at, pair);
    stands(worker, tools, Stage::Looping(at))
}

/// Makes the piece that it was given its own interval.
pub fn holds<'a, 't, H: Home>(driven: Driven<'a, 't, H>) -> Driven<'a, 't, H>
    requires { IsDriven driven.worker.run.hand.seat.token.me.0 driven.worker.program.now
        driven.worker.firsts.now driven.worker.tally driven.tools driven.stage }
    ensures { IsDriven result.worker.run.hand.seat.token.me.0 result.worker.program.now
        result.worker.firsts.now result.worker.tally result.tools result.stage }
{
    let Driven {
        worker,
        tools,
        stage,
    } = driven;
    match stage {
        Stage::Piece(at, pair) => holds_now(worker, tools, at, pair),
        _ => stands(worker, tools, stage),
    }
}
