// How a worker asks for work.
ghost use Rattle.std.specs.Prelude.{◌≡◌, ◌≤◌, Some, [], false, true};
ghost use Rattle.kt_prog.specs.Objects.{objects_of};
ghost use Rattle.kt_ready.specs.Contents.{HasRoomOf};
ghost use Rattle.kt_rule.specs.declared.views.Setup.{Setup};
ghost use Rattle.kt_words.specs.declared.layouts.TheConstants.{RECORDS};
ghost use Rattle.kt_calls.specs.Ranges.{IsOfCrew, IsWorker};
ghost use Rattle.kt_worker.specs.Asking.{Asks, Came, IsIdle, Tried};

use crossbeam_utils::Backoff;
use kt_calls::{Answer, Lead, Run};
use kt_ready::Scan;
use kt_words::Pair;
use std::sync::Wait;

/// What a worker gets that asked for work.
#[derive(Clone, Copy, Debug, PartialEq, Eq)]
pub enum Gotten {
    Nothing,
    /// The task of this record.
    Task(u32),
    /// A piece of the loop of this record.
    Piece(u32, Pair),
}

/// Leads those that ask at a worker, and serves them, if no one else does.
fn serve_if_free<R: Run>(run: &mut R, scan: &mut Scan, victim: u32)
    requires crew { IsOfCrew (R.view run.old) }
    requires victim { IsWorker (R.view run.old) victim }
    requires free { (R.view run.old).desk.free ≡ false }
    requires leads { (R.view run.old).desk.leads ≡ false }
    requires none { (R.view run.old).tasks.promised ≡ [] }
    requires objects { (j : Setup) → (R.view run.old).setup ≡ Some j
        → objects_of j.program.families ≤ scan.old.objects }
    requires entries { RECORDS ≤ scan.old.entries }
    ensures served { Asks (R.view run.old) (R.view run.new) }
    ensures room { HasRoomOf scan.old scan.new }
{
    match run.lead(victim) {
        Lead::Won => run.serve(victim, scan),
        Lead::Busy(_) => {}
    }
}

/// Serves those that ask at a worker, if no one else does. Then looks for the answer.
fn try_once<R: Run>(run: &mut R, scan: &mut Scan, victim: u32) -> Answer
    requires crew { IsOfCrew (R.view run.old) }
    requires victim { IsWorker (R.view run.old) victim }
    requires free { (R.view run.old).desk.free ≡ false }
    requires leads { (R.view run.old).desk.leads ≡ false }
    requires none { (R.view run.old).tasks.promised ≡ [] }
    requires given { (R.view run.old).tasks.given ≡ [] }
    requires objects { (j : Setup) → (R.view run.old).setup ≡ Some j
        → objects_of j.program.families ≤ scan.old.objects }
    requires entries { RECORDS ≤ scan.old.entries }
    ensures tried { Tried (R.view run.old) (R.view run.new) result }
    ensures room { HasRoomOf scan.old scan.new }
{
    serve_if_free(run, scan, victim);
    run.look()
}

/// Asks at a worker until it is answered. Whoever asks there tries to lead those that ask, and then answers them. So nobody has to wait
/// for one who only asks.
pub fn ask<R: Run, W: Wait>(
    rt: &W,
    run: &mut R,
    scan: &mut Scan,
    victim: u32,
    pause: &Backoff,
) -> Gotten
    requires crew { IsOfCrew (R.view run.old) }
    requires victim { IsWorker (R.view run.old) victim }
    requires idle { IsIdle (R.view run.old) }
    requires objects { (j : Setup) → (R.view run.old).setup ≡ Some j
        → objects_of j.program.families ≤ scan.old.objects }
    requires entries { RECORDS ≤ scan.old.entries }
    ensures came { Came (R.view run.old) (R.view run.new) result }
    ensures room { HasRoomOf scan.old scan.new }
{
    run.post(victim);
    for _ in rt.forever() {
        match try_once(run, scan, victim) {
            Answer::NotYet => pause.snooze(),
            Answer::Failed => return Gotten::Nothing,
            Answer::Task(at) => return Gotten::Task(at),
            Answer::Piece(at, piece) => return Gotten::Piece(at, piece),
            Answer::Withdrawn => unreachable!(),
        }
    }
    unreachable!()
}
