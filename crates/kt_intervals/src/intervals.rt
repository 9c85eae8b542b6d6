// The own interval, chunk by chunk.
ghost use Rattle.std.specs.Prelude.{◌≡◌, MatchBool, [], suc, true};
ghost use Rattle.kt_calls.specs.Ranges.{IsOfCrew, IsRecord};
ghost use Rattle.kt_intervals.specs.Drains.{Drains};
ghost use Rattle.kt_intervals.specs.Programs.{HasFirsts, IsOfRun};

use crate::chunks::{Halfway, run_taken};
use kt_calls::{Run, Taken};
use kt_prog::{FaultAt, Program};
use std::sync::Wait;

/// How many indexes are taken in one step.
pub const GRAIN: u32 = 16;

/// A seat that has run its interval, the first fault so far, and whether the interval is empty. Else the run stops.
pub struct Ran<R: Run> {
    pub run: R,
    pub fault: Option<FaultAt>,
    pub empty: bool,
}

/// Runs the own interval, of the loop in the record `at`, chunk by chunk until it is empty or the run stops. `fault` is the first fault so far.
pub fn run_interval<R: Run, W: Wait>(
    rt: &W,
    run: R,
    program: &Program,
    firsts: &[u32],
    at: u32,
    fault: Option<FaultAt>,
) -> Ran<R>
    requires crew { IsOfCrew (R.view run) }
    requires inside { IsRecord (R.view run) at }
    requires program { IsOfRun (R.view run) program.now }
    requires firsts { HasFirsts program.now.families firsts.now }
    requires home { (R.view run).loops.home ≡ suc at }
    requires none_taken { (R.view run).loops.taken ≡ [] }
    ensures drained { Drains at (R.view run) (R.view result.run) fault result.fault }
    ensures ends { MatchBool result.empty ((R.view result.run).loops.free ≡ true)
        ((R.view result.run).seen.stop ≡ true) }
{
    let mut now = Halfway { run, fault };
    for _ in rt.forever() {
        if now.run.stopped() {
            return let_go(now, false);
        }
        match now.run.chunk(GRAIN) {
            Taken::Got(pair) => now = run_taken(now, program, firsts, at, pair),
            Taken::Empty => return let_go(now, true),
            Taken::Moved(_) => {}
        }
    }
    unreachable!()
}

fn let_go<R: Run>(now: Halfway<R>, empty: bool) -> Ran<R>
    ensures { (result.run ≡ now.run) × (result.fault ≡ now.fault) × (result.empty ≡ empty) }
{
    let Halfway { run, fault } = now;
    Ran { run, fault, empty }
}
