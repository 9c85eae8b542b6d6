// Answers to the job that a source gives.
ghost use Rattle.std.specs.Prelude.{◌≡◌, ◌≤◌, length, IfErr, IfOk};
ghost use Rattle.kt_io.specs.Ending.{EndsWith, ForJob, SendsOrLacks};
ghost use Rattle.kt_io.specs.Over.{over};
ghost use Rattle.kt_io.specs.Streams.{Tells};
ghost use Rattle.kt_law.specs.declared.limits.TheConstants.{WORKERS};
ghost use Rattle.kt_open.specs.Answers.{Opened};
ghost use Rattle.kaapi.specs.Answers.{AnswersAsked, AnswersJob, AnswersNone, AnswersRun, faults};
ghost use Rattle.kaapi.specs.Headline.{Recorded};

use crate::asked::Asked;
use crate::crews::reply_by_workers;
use crate::exits::Exit;
use crate::jobs::reply_to;
use crate::sending::{send, send_run, tell};
use kt_io::{ReadError, Sink, Source, read_all};
use kt_law::{JOB, NoMemory};
use kt_pool::Record;
use kt_print::Line;
use kt_worker::Gate;
use std::alloc::Global;
use std::sync::Wait;
use std::thread::Threads;

/// Answers what is asked for the job.
pub fn answer_source<S: Source, K: Sink>(
    alloc: Global,
    asked: Asked,
    source: &mut S,
    sink: &mut K,
) -> Exit
    ensures answers { ForJob (S.left source.old)
        (λ job. EndsWith faults (AnswersJob (AnswersAsked asked) job)
        (over S.left S.faults source.old source.new)
        (over K.written K.faults sink.old sink.new) result) }
    ensures source_later { S.faults source.old ≤ S.faults source.new }
    ensures sink_later { K.faults sink.old ≤ K.faults sink.new }
{
    match take_job(alloc, source, sink) {
        Ok(job) => answer_job(alloc, asked, &job, sink),
        Err(exit) => exit,
    }
}

/// Answers the job by a run of so many workers, and hands back the record of a run whose answer was written. It may wait.
pub fn run_source<R: Threads + Wait + Sync, S: Source, K: Sink, G: Gate + Sync>(
    rt: &R,
    alloc: Global,
    workers: u32,
    source: &mut S,
    sink: &mut K,
    gate: &G,
) -> (Exit, Option<Record>)
    requires some { 1 ≤ workers }
    requires few { workers ≤ WORKERS }
    ensures answers { ForJob (S.left source.old)
        (λ job. EndsWith faults (AnswersJob AnswersRun job)
        (over S.left S.faults source.old source.new)
        (over K.written K.faults sink.old sink.new) result.0
        × Recorded (Opened job) workers result.0 result.1) }
    ensures source_later { S.faults source.old ≤ S.faults source.new }
    ensures sink_later { K.faults sink.old ≤ K.faults sink.new }
{
    match take_job(alloc, source, sink) {
        Ok(job) => run_job(rt, alloc, workers, &job, sink, gate),
        Err(exit) => (exit, None),
    }
}

// The job that the source gives. Where there is none to be answered, how the call ends: a job that is too long is told so.
fn take_job<S: Source, K: Sink>(
    alloc: Global,
    source: &mut S,
    sink: &mut K,
) -> Result<Vec<u8>, Exit>
    ensures told { IfOk result (λ job. Tells (S.left source.old) job.items) }
    ensures within { IfOk result (λ job. length job.items ≤ JOB) }
    ensures unwritten { IfOk result (λ job. sink.new ≡ sink.old) }
    ensures ends { IfErr result (λ exit. ForJob (S.left source.old)
        (λ job. EndsWith faults (AnswersJob AnswersNone job)
        (over S.left S.faults source.old source.new)
        (over K.written K.faults sink.old sink.new) exit)) }
    ensures source_later { S.faults source.old ≤ S.faults source.new }
    ensures sink_later { K.faults sink.old ≤ K.faults sink.new }
{
    match read_all(alloc, source, JOB) {
        Ok(job) => Ok(job),
        Err(ReadError::Failed) => Err(Exit::ReadFault),
        Err(ReadError::TooLong) => Err(tell(alloc, Exit::TooLong, &Line::TooLong, sink)),
        Err(ReadError::NoMemory) => Err(Exit::NoMemory),
    }
}

fn answer_job<K: Sink>(alloc: Global, asked: Asked, job: &[u8], sink: &mut K) -> Exit
    requires { length job.now ≤ JOB }
    ensures sent { SendsOrLacks faults (AnswersAsked asked job.now)
        (over K.written K.faults sink.old sink.new) result }
    ensures later { K.faults sink.old ≤ K.faults sink.new }
{
    match reply_to(alloc, asked, job) {
        Ok(reply) => send(sink, reply.exit(), reply.text()),
        Err(NoMemory) => Exit::NoMemory,
    }
}

fn run_job<R: Threads + Wait + Sync, K: Sink, G: Gate + Sync>(
    rt: &R,
    alloc: Global,
    workers: u32,
    job: &[u8],
    sink: &mut K,
    gate: &G,
) -> (Exit, Option<Record>)
    requires short { length job.now ≤ JOB }
    requires some { 1 ≤ workers }
    requires few { workers ≤ WORKERS }
    ensures sent { SendsOrLacks faults (AnswersRun job.now)
        (over K.written K.faults sink.old sink.new) result.0 }
    ensures recorded { Recorded (Opened job.now) workers result.0 result.1 }
    ensures later { K.faults sink.old ≤ K.faults sink.new }
{
    match reply_by_workers(rt, alloc, workers, job, gate) {
        Ok((reply, witness)) => send_run(sink, &reply, witness),
        Err(NoMemory) => (Exit::NoMemory, None),
    }
}
