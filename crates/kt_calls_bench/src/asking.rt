// A seat that asks its own worker, and serves itself.
ghost use Rattle.std.specs.Prelude.{◌≡◌, ◌≤◌, [], Some, false, true};
ghost use Rattle.kt_prog.specs.Objects.{objects_of};
ghost use Rattle.kt_ready.specs.Contents.{HasRoomOf};
ghost use Rattle.kt_rule.specs.declared.views.Setup.{Setup};
ghost use Rattle.kt_words.specs.declared.layouts.TheConstants.{RECORDS};
ghost use Rattle.kt_calls.specs.Ranges.{IsOfCrew, IsWorker};
ghost use Rattle.kt_worker.specs.Asking.{Asks, Tried};
ghost use Rattle.kt_calls_bench.specs.Asking.{MayAsk};

use kt_calls::{Answer, Lead, Run};
use kt_ready::Scan;

// Serves those that ask at worker 0, if no one else does.
fn serve_if_free<R: Run>(run: &mut R, scan: &mut Scan)
    requires crew { IsOfCrew (R.view run.old) }
    requires victim { IsWorker (R.view run.old) 0 }
    requires free { (R.view run.old).desk.free ≡ false }
    requires leads { (R.view run.old).desk.leads ≡ false }
    requires none { (R.view run.old).tasks.promised ≡ [] }
    requires objects { (j : Setup) → (R.view run.old).setup ≡ Some j
        → objects_of j.program.families ≤ scan.old.objects }
    requires entries { RECORDS ≤ scan.old.entries }
    ensures served { Asks (R.view run.old) (R.view run.new) }
    ensures room { HasRoomOf scan.old scan.new }
{
    match run.lead(0) {
        Lead::Won => run.serve(0, scan),
        Lead::Busy(_) => {}
    }
}

// One request at worker 0.
fn ask<R: Run>(run: &mut R, scan: &mut Scan) -> Answer
    requires may { MayAsk (R.view run.old) scan.old }
    ensures tried { Tried (R.view run.old) (R.view run.new) result }
    ensures room { HasRoomOf scan.old scan.new }
{
    run.post(0);
    serve_if_free(run, scan);
    run.look()
}

/// Asks once, and starts the task that it is given. False where it may not ask again.
pub fn start_one<R: Run>(run: &mut R, scan: &mut Scan) -> bool
    requires may { MayAsk (R.view run.old) scan.old }
    ensures may { result ≡ true → MayAsk (R.view run.new) scan.new }
{
    match ask(run, scan) {
        Answer::Failed => true,
        Answer::Task(at) => {
            run.start(at);
            true
        }
        _ => false,
    }
}

/// Asks so often, or until it is given something. Says how often it was given nothing.
pub fn ask_often<R: Run>(run: &mut R, scan: &mut Scan, times: u32) -> u32
    requires may { MayAsk (R.view run.old) scan.old }
{
    for failed in 0..times {
        match ask(run, scan) {
            Answer::Failed => {}
            _ => return failed,
        }
    }
    times
}
