// What a generated job is answered that is run by workers.
ghost use Rattle.std.specs.Prelude.{◌≤◌, IfOk};
ghost use Rattle.kt_io.specs.Ending.{SendsOrLacks};
ghost use Rattle.kt_io.specs.Over.{over};
ghost use Rattle.kt_law.specs.declared.limits.TheConstants.{WORKERS};
ghost use Rattle.kaapi.specs.Answers.{AnswersDemo, faults};
ghost use Rattle.kaapi.specs.Headline.{Recorded};
ghost use Rattle.kaapi.specs.Totals.{IsGenerated};

use crate::asked::Generated;
use crate::exits::Exit;
use crate::jobs::reply_with;
use crate::replies::Reply;
use crate::sending::send_run;
use crate::totals::totals;
use kt_crew::run_all;
use kt_gen::make;
use kt_gen_runs::laws::generated_jobs_complete;
use kt_io::Sink;
use kt_law::NoMemory;
use kt_pool::Record;
use kt_worker::Gate;
use std::alloc::Global;
use std::sync::Wait;
use std::thread::Threads;

/// Runs the generated job by so many workers and writes its totals. Hands back the record of a run whose totals were written. It may wait.
pub fn run_generated<R: Threads + Wait + Sync, K: Sink, G: Gate + Sync>(
    rt: &R,
    alloc: Global,
    workers: u32,
    job: Generated,
    sink: &mut K,
    gate: &G,
) -> (Exit, Option<Record>)
    requires some { 1 ≤ workers }
    requires few { workers ≤ WORKERS }
    ensures sent { SendsOrLacks faults (AnswersDemo job.kind job.size job.number)
        (over K.written K.faults sink.old sink.new) result.0 }
    ensures recorded { Recorded (IsGenerated job.kind job.size job.number) workers result.0
        result.1 }
    ensures later { K.faults sink.old ≤ K.faults sink.new }
{
    match demo_by_workers(rt, alloc, workers, job, gate) {
        Ok((reply, witness)) => send_run(sink, &reply, witness),
        Err(NoMemory) => (Exit::NoMemory, None),
    }
}

/// The reply to the generated job that so many workers run, and the record of the run. It may wait.
fn demo_by_workers<R: Threads + Wait + Sync, G: Gate + Sync>(
    rt: &R,
    alloc: Global,
    workers: u32,
    job: Generated,
    gate: &G,
) -> Result<(Reply, Option<Record>), NoMemory>
    requires some { 1 ≤ workers }
    requires few { workers ≤ WORKERS }
    ensures answers { IfOk result (λ x. AnswersDemo job.kind job.size job.number x.0) }
    ensures recorded { IfOk result
        (λ x. Recorded (IsGenerated job.kind job.size job.number) workers x.0.exit x.1) }
{
    generated_jobs_complete();
    let (program, input) = make(alloc, job.kind, job.size, job.number)?;
    let (ran, witness) = run_all(rt, alloc, &program, &input, workers, gate)?;
    let line = totals(&program, ran);
    let reply = reply_with(alloc, Exit::Done, &line)?;
    Ok((reply, Some(witness)))
}
