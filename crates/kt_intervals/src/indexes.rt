// The body of one index in hand.
ghost use Rattle.std.specs.Prelude.{◌≡◌, []};
ghost use Rattle.kt_calls.specs.Ranges.{IsRecord};
ghost use Rattle.kt_intervals.specs.Indexes.{GoneSo, StandsIn, index_fault, fault_with};
ghost use Rattle.kt_prog.specs.Accepted.{IsAccepted};
ghost use Rattle.kt_prog.specs.Calls.{Index};
ghost use Rattle.kt_prog.specs.Fits.{FitsJob};
ghost use Rattle.kt_rule.specs.declared.views.Spot.{Spot};
ghost use Rattle.kt_tasks.specs.Climbs.{HasClimbed};
ghost use Rattle.kt_tasks.specs.Hands.{IsHeld};

use crate::hands::{Began, IndexHands};
use kt_body::{Ended, run_index};
use kt_calls::Run;
use kt_prog::{Call, FaultAt, Program};
use std::marker::PhantomData;

/// What the indexes of a chunk are run with.
#[derive(Clone, Copy)]
pub struct Chunk<'a> {
    pub program: &'a Program,
    /// The number of each object's element 0.
    pub firsts: &'a [u32],
    /// The loop's call, and its record.
    pub call: &'a Call,
    pub at: u32,
    /// The first index.
    pub from: u32,
}

/// A seat after the body of an index, and how that ended.
pub struct Gone<R: Run> {
    pub run: R,
    pub ended: Ended,
}

/// Runs the body of this index.
pub fn go<R: Run, B: Began>(run: R, chunk: Chunk, index: u32) -> Gone<R>
    requires accepted { IsAccepted chunk.program.now }
    requires fits { FitsJob chunk.program.now (Index chunk.call.now index) }
    requires stands { StandsIn B.start
        (record { view = R.view run; program = chunk.program.now; firsts = chunk.firsts.now })
        chunk.program.now (Index chunk.call.now index) [] 0 }
    ensures { GoneSo B.start (R.view result.run) result.ended }
{
    let mut hands: IndexHands<R, B> = IndexHands {
        run,
        program: chunk.program,
        firsts: chunk.firsts,
        of: PhantomData,
    };
    let ended = run_index(chunk.program, chunk.call, index, &mut hands);
    let run = hands.into_run();
    Gone { run, ended }
}

/// The fault with which the body of an index ended, of the loop in the record `at`.
pub fn fault_of<R: Run>(run: &mut R, at: u32, index: u32, ended: Ended) -> Option<FaultAt>
    requires inside { IsRecord (R.view run.old) at }
    requires held { (m : Spot) × IsHeld (R.view run.old) at m }
    ensures climbed { HasClimbed (R.view run.old) (R.view run.new) }
    ensures fault { (m : Spot) → IsHeld (R.view run.old) at m
        → result ≡ index_fault m.path index (fault_with ended) }
{
    match ended {
        Ended::Fault(fault, line) => {
            let path = run.path_of(at);
            Some(FaultAt {
                path,
                index: Some(index),
                fault,
                line,
            })
        }
        Ended::Done => None,
        Ended::Halted => None,
    }
}
