// What a driven worker reads of records that are not its own.
ghost use Rattle.std.specs.Prelude.{◌≡◌, ◌<◌, ◌≤◌, true};
ghost use Rattle.kt_law.specs.declared.stands.Stand.TheVariants as S;
ghost use Rattle.kt_words.specs.declared.layouts.TheConstants.{RECORDS};
ghost use Rattle.kt_worker.specs.Levels.{Calm};
ghost use Rattle.kt_pool_trials.specs.Driven.{IsDriven, IsEquipped};

use crate::driven::{Driven, stands};
use crate::recorders::{Event, Recorder, keep, note_accesses, offer};
use crate::stages::Stage;
use kt_calls::Run;
use kt_hands::Home;
use kt_law::Stand;
use kt_tasks::Offer;
use kt_words::StateWord;
use kt_worker::{Tools, Worker};

fn watches_now<'a, 't, H: Home>(
    mut worker: Worker<'a, Recorder<'t, H>>,
    tools: Tools,
    at: u32,
) -> Driven<'a, 't, H>
    requires equipped { IsEquipped worker.program.now worker.firsts.now tools }
    requires calm { Calm worker.run.hand.seat.token.me.0 worker.program.now worker.tally
        tools.stack.levels }
    requires near { at < RECORDS }
    ensures { IsDriven result.worker.run.hand.seat.token.me.0 result.worker.program.now
        result.worker.firsts.now result.worker.tally result.tools result.stage }
{
    worker.run.stand(at);
    stands(worker, tools, Stage::Resting)
}

/// Looks at a record of worker 0.
pub fn watches<'a, 't, H: Home>(driven: Driven<'a, 't, H>, at: u32) -> Driven<'a, 't, H>
    requires driven { IsDriven driven.worker.run.hand.seat.token.me.0 driven.worker.program.now
        driven.worker.firsts.now driven.worker.tally driven.tools driven.stage }
    requires near { at < RECORDS }
    ensures { IsDriven result.worker.run.hand.seat.token.me.0 result.worker.program.now
        result.worker.firsts.now result.worker.tally result.tools result.stage }
{
    let Driven {
        worker,
        tools,
        stage,
    } = driven;
    match stage {
        Stage::New => watches_now(worker, tools, at),
        Stage::Resting => watches_now(worker, tools, at),
        _ => stands(worker, tools, stage),
    }
}

// Whether this is the state of an unclaimed first entry.
fn is_first_unclaimed(state: StateWord) -> bool
    ensures stand { result ≡ true → state.stand ≡ S.Unclaimed }
    ensures fork { result ≡ true → state.fork ≤ 1 }
{
    match state.stand {
        Stand::Unclaimed => state.fork <= 1,
        _ => false,
    }
}

// The first entry of a frame is ready wherever it is unclaimed.
fn notes_now<'a, 't, H: Home>(
    mut worker: Worker<'a, Recorder<'t, H>>,
    tools: Tools,
    at: u32,
) -> Driven<'a, 't, H>
    requires equipped { IsEquipped worker.program.now worker.firsts.now tools }
    requires calm { Calm worker.run.hand.seat.token.me.0 worker.program.now worker.tally
        tools.stack.levels }
    requires near { at < RECORDS }
    ensures { IsDriven result.worker.run.hand.seat.token.me.0 result.worker.program.now
        result.worker.firsts.now result.worker.tally result.tools result.stage }
{
    let state = worker.run.stand(at);
    if !is_first_unclaimed(state) {
        return stands(worker, tools, Stage::Resting);
    }
    note_accesses(&mut worker.run.hand, at);
    stands(worker, tools, Stage::Noted(at, state))
}

/// Notes the first entry of a frame of worker 0.
pub fn notes<'a, 't, H: Home>(driven: Driven<'a, 't, H>, at: u32) -> Driven<'a, 't, H>
    requires driven { IsDriven driven.worker.run.hand.seat.token.me.0 driven.worker.program.now
        driven.worker.firsts.now driven.worker.tally driven.tools driven.stage }
    requires near { at < RECORDS }
    ensures { IsDriven result.worker.run.hand.seat.token.me.0 result.worker.program.now
        result.worker.firsts.now result.worker.tally result.tools result.stage }
{
    let Driven {
        worker,
        tools,
        stage,
    } = driven;
    match stage {
        Stage::New => notes_now(worker, tools, at),
        Stage::Resting => notes_now(worker, tools, at),
        _ => stands(worker, tools, stage),
    }
}

/// Claims for itself the entry that it has noted.
pub fn offers<'a, 't, H: Home>(driven: Driven<'a, 't, H>) -> Driven<'a, 't, H>
    requires driven { IsDriven driven.worker.run.hand.seat.token.me.0 driven.worker.program.now
        driven.worker.firsts.now driven.worker.tally driven.tools driven.stage }
    ensures { IsDriven result.worker.run.hand.seat.token.me.0 result.worker.program.now
        result.worker.firsts.now result.worker.tally result.tools result.stage }
{
    let Driven {
        mut worker,
        tools,
        stage,
    } = driven;
    match stage {
        Stage::Noted(at, state) => {
            let thief = worker.run.worker();
            match offer(&mut worker.run.hand, at, state, thief) {
                Offer::Won => {
                    keep(&mut worker.run.log, Event::Offered(at, Offer::Won));
                    stands(worker, tools, Stage::Over)
                }
                Offer::Lost(word) => {
                    keep(&mut worker.run.log, Event::Offered(at, Offer::Lost(word)));
                    stands(worker, tools, Stage::Resting)
                }
            }
        }
        _ => stands(worker, tools, stage),
    }
}
