// What a job is answered that is run by workers.
ghost use Rattle.std.specs.Prelude.{◌≡◌, ◌≤◌, List, ℕ, length, IfOk};
ghost use Rattle.kt_law.specs.declared.limits.TheConstants.{WORKERS};
ghost use Rattle.kt_open.specs.Answers.{Opened, answered_run};
ghost use Rattle.kt_prog.specs.Accepted.{IsAccepted};
ghost use Rattle.kt_prog.specs.Objects.{inputs_of};
ghost use Rattle.kt_prog.specs.Outcome.{outcome_of};
ghost use Rattle.kaapi.specs.Answers.{AnswersRun, answered_by};
ghost use Rattle.kaapi.specs.Headline.{Recorded};

use crate::jobs::{reply_to_outcome, reply_to_unopened};
use crate::replies::Reply;
use kt_crew::run_all;
use kt_law::{JOB, NoMemory};
use kt_open::open_job;
use kt_pool::Record;
use kt_prog::Program;
use kt_worker::Gate;
use std::alloc::Global;
use std::sync::Wait;
use std::thread::Threads;

/// The reply to a job that so many workers run, and the record of the run where it came to its end. It may wait.
pub fn reply_by_workers<R: Threads + Wait + Sync, G: Gate + Sync>(
    rt: &R,
    alloc: Global,
    workers: u32,
    job: &[u8],
    gate: &G,
) -> Result<(Reply, Option<Record>), NoMemory>
    requires short { length job.now ≤ JOB }
    requires some { 1 ≤ workers }
    requires few { workers ≤ WORKERS }
    ensures answers { IfOk result (λ x. AnswersRun job.now x.0) }
    ensures recorded { IfOk result (λ x. Recorded (Opened job.now) workers x.0.exit x.1) }
{
    match open_job(alloc, job) {
        Ok((program, input)) => run(rt, alloc, workers, &program, &input, gate),
        Err(unopened) => Ok((reply_to_unopened(alloc, unopened)?, None)),
    }
}

fn run<R: Threads + Wait + Sync, G: Gate + Sync>(
    rt: &R,
    alloc: Global,
    workers: u32,
    program: &Program,
    input: &[u64],
    gate: &G,
) -> Result<(Reply, Option<Record>), NoMemory>
    requires accepted { IsAccepted program.now }
    requires whole { length input.now ≡ inputs_of program.now.families }
    requires some { 1 ≤ workers }
    requires few { workers ≤ WORKERS }
    ensures answers { IfOk result
        (λ x. answered_by x.0
        ≡ answered_run program.now.families (outcome_of program.now input.now).outcome) }
    ensures recorded { (job : List ℕ) → Opened job program.now input.now
        → IfOk result (λ x. Recorded (Opened job) workers x.0.exit x.1) }
{
    let (ran, witness) = run_all(rt, alloc, program, input, workers, gate)?;
    let reply = reply_to_outcome(alloc, program, ran.outcome)?;
    Ok((reply, Some(witness)))
}
