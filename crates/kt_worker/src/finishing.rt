// The end of a task.
ghost use Rattle.std.specs.Prelude.{◌≡◌, ◌≤◌, ◌+◌, ◌∷◌, length, true};
ghost use Rattle.kt_rule.specs.declared.views.Spot.{Spot};
ghost use Rattle.kt_tasks.specs.Hands.{IsHeld};
ghost use Rattle.kt_tasks.specs.Climbs.{HasClimbed};
ghost use Rattle.kt_calls.specs.Ranges.{IsRecord};
ghost use Rattle.kt_intervals.specs.Indexes.{fault_with};
ghost use Rattle.kt_worker.specs.Faults.{fault_at};
ghost use Rattle.kt_worker.specs.Levels.{Calm, IsThrough, Rises, Turns, raised};

use crate::stacks::{Level, Stack};
use crate::workers::Worker;
use kt_body::Ended;
use kt_calls::Run;
use kt_faults::earlier;
use kt_prog::FaultAt;

/// The fault with which a task ended.
fn fault_of<R: Run>(run: &mut R, level: &Level) -> Option<FaultAt>
    requires inside { IsRecord (R.view run.old) level.now.at }
    requires held { (m : Spot) × IsHeld (R.view run.old) level.now.at m }
    ensures climbed { HasClimbed (R.view run.old) (R.view run.new) }
    ensures fault { (m : Spot) → IsHeld (R.view run.old) level.now.at m
        → result ≡ fault_at m.path (fault_with level.now.ended) }
{
    match level.ended {
        Ended::Fault(fault, line) => {
            let path = run.path_of(level.at);
            Some(FaultAt {
                path,
                index: None,
                fault,
                line,
            })
        }
        Ended::Done => None,
        Ended::Halted => None,
    }
}

/// Notes that the next entry of the topmost frame is finished.
fn raise(stack: &mut Stack, own: bool)
    requires rises { Rises own stack.old.levels }
    requires room { length stack.old.levels ≤ stack.old.room }
    ensures { stack.new ≡ record { levels = raised own stack.old.levels; room = stack.old.room } }
{
    if !own {
        return;
    }
    match stack.pop() {
        None => {}
        Some(level) => stack.push(Level {
            next: level.next + 1,
            stolen: false,
            ..level
        }),
    }
}

/// Finishes a task all of whose children are finished, or a loop of which no index is left.
pub fn finish<'a, R: Run>(worker: Worker<'a, R>, stack: &mut Stack, level: Level) -> Worker<'a, R>
    requires calm { Calm (R.view worker.run) worker.program.now worker.tally
        (level ∷ stack.old.levels) }
    requires through { IsThrough (R.view worker.run) level }
    requires room { length stack.old.levels ≤ stack.old.room }
    ensures turns { Turns (R.view worker.entry.run) (R.view result.run) worker.entry.program.now
        result.tally stack.new.levels true }
    ensures room { stack.new.room ≡ stack.old.room }
    ensures program { (result.program.now ≡ worker.entry.program.now)
        × (result.firsts.now ≡ worker.entry.firsts.now) }
{
    let Worker {
        mut run,
        program,
        firsts,
        pause,
        mut tally,
    } = worker;
    let fault = fault_of(&mut run, &level);
    run.finish(level.at);
    tally.fault = earlier(fault, tally.fault.take());
    raise(stack, level.own);
    Worker {
        run,
        program,
        firsts,
        pause,
        tally,
    }
}
