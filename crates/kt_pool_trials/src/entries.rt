// What a driven worker does with the entries of its topmost frame.
ghost use Rattle.std.specs.Prelude.{◌≡◌, ◌<◌, ◌∷◌, true};
ghost use Rattle.kt_worker.specs.Levels.{Calm};
ghost use Rattle.kt_pool_trials.specs.Driven.{IsDriven, IsEquipped};

use crate::driven::{Driven, stands};
use crate::recorders::Recorder;
use crate::stages::Stage;
use kt_calls::{Claim, Run};
use kt_hands::Home;
use kt_law::Stand;
use kt_worker::{Level, Tools, Worker, finish};

/// Claims the next entry of the topmost frame.
pub fn claims<'a, 't, H: Home>(driven: Driven<'a, 't, H>) -> Driven<'a, 't, H>
    requires { IsDriven driven.worker.run.hand.seat.token.me.0 driven.worker.program.now
        driven.worker.firsts.now driven.worker.tally driven.tools driven.stage }
    ensures { IsDriven result.worker.run.hand.seat.token.me.0 result.worker.program.now
        result.worker.firsts.now result.worker.tally result.tools result.stage }
{
    let Driven {
        worker,
        mut tools,
        stage,
    } = driven;
    match stage {
        Stage::Resting => match tools.stack.pop() {
            None => stands(worker, tools, stage),
            Some(level) => claims_next(worker, tools, level),
        },
        _ => stands(worker, tools, stage),
    }
}

fn claims_next<'a, 't, H: Home>(
    mut worker: Worker<'a, Recorder<'t, H>>,
    mut tools: Tools,
    level: Level,
) -> Driven<'a, 't, H>
    requires equipped { IsEquipped worker.program.now worker.firsts.now tools }
    requires calm { Calm worker.run.hand.seat.token.me.0 worker.program.now worker.tally
        (level ∷ tools.stack.levels) }
    ensures { IsDriven result.worker.run.hand.seat.token.me.0 result.worker.program.now
        result.worker.firsts.now result.worker.tally result.tools result.stage }
{
    if level.next >= level.count {
        tools.stack.push(level);
        return stands(worker, tools, Stage::Resting);
    }
    let at = worker.tally.base + level.first + level.next;
    let claim = worker.run.claim_own(at);
    tools.stack.push(level);
    match claim {
        Claim::Won => stands(worker, tools, Stage::Begun(at, true)),
        Claim::Stolen(_) => stands(worker, tools, Stage::Resting),
    }
}

/// Looks at the next entry of the topmost frame, and goes past it where it is finished.
pub fn passes<'a, 't, H: Home>(driven: Driven<'a, 't, H>) -> Driven<'a, 't, H>
    requires { IsDriven driven.worker.run.hand.seat.token.me.0 driven.worker.program.now
        driven.worker.firsts.now driven.worker.tally driven.tools driven.stage }
    ensures { IsDriven result.worker.run.hand.seat.token.me.0 result.worker.program.now
        result.worker.firsts.now result.worker.tally result.tools result.stage }
{
    let Driven {
        worker,
        mut tools,
        stage,
    } = driven;
    match stage {
        Stage::Resting => match tools.stack.pop() {
            None => stands(worker, tools, stage),
            Some(level) => passes_next(worker, tools, level),
        },
        _ => stands(worker, tools, stage),
    }
}

fn passes_next<'a, 't, H: Home>(
    mut worker: Worker<'a, Recorder<'t, H>>,
    mut tools: Tools,
    level: Level,
) -> Driven<'a, 't, H>
    requires equipped { IsEquipped worker.program.now worker.firsts.now tools }
    requires calm { Calm worker.run.hand.seat.token.me.0 worker.program.now worker.tally
        (level ∷ tools.stack.levels) }
    ensures { IsDriven result.worker.run.hand.seat.token.me.0 result.worker.program.now
        result.worker.firsts.now result.worker.tally result.tools result.stage }
{
    if level.next >= level.count {
        tools.stack.push(level);
        return stands(worker, tools, Stage::Resting);
    }
    let at = worker.tally.base + level.first + level.next;
    match worker.run.stand(at).stand {
        Stand::Finished => {
            tools.stack.push(Level {
                next: level.next + 1,
                stolen: false,
                ..level
            });
            stands(worker, tools, Stage::Resting)
        }
        Stand::Empty | Stand::Unclaimed | Stand::Given(_) | Stand::Running(_) => {
            tools.stack.push(level);
            stands(worker, tools, Stage::Resting)
        }
    }
}

/// Finishes the task of the topmost frame, if all its entries are known finished, or it is a loop of which no index is left.
pub fn finishes<'a, 't, H: Home>(driven: Driven<'a, 't, H>) -> Driven<'a, 't, H>
    requires { IsDriven driven.worker.run.hand.seat.token.me.0 driven.worker.program.now
        driven.worker.firsts.now driven.worker.tally driven.tools driven.stage }
    ensures { IsDriven result.worker.run.hand.seat.token.me.0 result.worker.program.now
        result.worker.firsts.now result.worker.tally result.tools result.stage }
{
    let Driven {
        worker,
        mut tools,
        stage,
    } = driven;
    match stage {
        Stage::Resting => match tools.stack.pop() {
            None => stands(worker, tools, stage),
            Some(level) => finishes_top(worker, tools, level),
        },
        _ => stands(worker, tools, stage),
    }
}

fn finishes_top<'a, 't, H: Home>(
    worker: Worker<'a, Recorder<'t, H>>,
    mut tools: Tools,
    level: Level,
) -> Driven<'a, 't, H>
    requires equipped { IsEquipped worker.program.now worker.firsts.now tools }
    requires calm { Calm worker.run.hand.seat.token.me.0 worker.program.now worker.tally
        (level ∷ tools.stack.levels) }
    ensures { IsDriven result.worker.run.hand.seat.token.me.0 result.worker.program.now
        result.worker.firsts.now result.worker.tally result.tools result.stage }
{
    if level.looping {
        return finishes_loop(worker, tools, level);
    }
    if level.next < level.count {
        tools.stack.push(level);
        return stands(worker, tools, Stage::Resting);
    }
    let worker = finish(worker, &mut tools.stack, level);
    stands(worker, tools, Stage::Resting)
}

// A loop is finished by what is left of it alone.
fn finishes_loop<'a, 't, H: Home>(
    mut worker: Worker<'a, Recorder<'t, H>>,
    mut tools: Tools,
    level: Level,
) -> Driven<'a, 't, H>
    requires equipped { IsEquipped worker.program.now worker.firsts.now tools }
    requires calm { Calm worker.run.hand.seat.token.me.0 worker.program.now worker.tally
        (level ∷ tools.stack.levels) }
    requires looping { level.looping ≡ true }
    ensures { IsDriven result.worker.run.hand.seat.token.me.0 result.worker.program.now
        result.worker.firsts.now result.worker.tally result.tools result.stage }
{
    if worker.run.left(level.at) == 0 {
        let worker = finish(worker, &mut tools.stack, level);
        return stands(worker, tools, Stage::Resting);
    }
    tools.stack.push(level);
    stands(worker, tools, Stage::Resting)
}
