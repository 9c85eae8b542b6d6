// Answers that are made whole and then written.
ghost use Rattle.std.specs.Prelude.{◌≡◌, ◌≤◌};
ghost use Rattle.kt_io.specs.Ending.{Said, Sends, SendsOrLacks};
ghost use Rattle.kt_io.specs.Over.{over};
ghost use Rattle.kt_gen.specs.Jobs.{IsSize};
ghost use Rattle.kaapi.specs.Answers.{faults, generated, told};
ghost use Rattle.kaapi.specs.Jobs.{kept};

use crate::exits::Exit;
use crate::replies::Reply;
use kt_gen::job_bytes;
use kt_io::{Sink, write_all};
use kt_law::NoMemory;
use kt_pool::Record;
use kt_print::{Line, line_bytes};
use kt_text::Kind;
use std::alloc::Global;

/// Writes a generated job.
pub fn send_generated<K: Sink>(
    alloc: Global,
    kind: Kind,
    size: u32,
    number: u64,
    sink: &mut K,
) -> Exit
    requires { IsSize kind size }
    ensures sent { SendsOrLacks faults (λ (reply : Said Exit). reply ≡ generated kind size number)
        (over K.written K.faults sink.old sink.new) result }
    ensures later { K.faults sink.old ≤ K.faults sink.new }
{
    match job_bytes(alloc, kind, size, number) {
        Ok(job) => send(sink, Exit::Done, &job),
        Err(NoMemory) => Exit::NoMemory,
    }
}

/// Writes an answer of one line.
pub fn tell<K: Sink>(alloc: Global, exit: Exit, line: &Line, sink: &mut K) -> Exit
    ensures sent { SendsOrLacks faults (λ (reply : Said Exit). reply ≡ told exit line.now)
        (over K.written K.faults sink.old sink.new) result }
    ensures later { K.faults sink.old ≤ K.faults sink.new }
{
    match line_bytes(alloc, line) {
        Ok(text) => send(sink, exit, &text),
        Err(NoMemory) => Exit::NoMemory,
    }
}

/// Writes the answer, and says how the call ends.
pub fn send<K: Sink>(sink: &mut K, exit: Exit, text: &[u8]) -> Exit
    ensures sent { Sends faults (record { exit = exit; text = text.now })
        (over K.written K.faults sink.old sink.new) result }
    ensures later { K.faults sink.old ≤ K.faults sink.new }
{
    match write_all(sink, text) {
        Ok(()) => exit,
        Err(_) => Exit::WriteFault,
    }
}

/// Writes the answer to a run, and hands back its record where the whole answer was written.
pub fn send_run<K: Sink>(
    sink: &mut K,
    reply: &Reply,
    witness: Option<Record>,
) -> (Exit, Option<Record>)
    ensures sent { Sends faults reply.now (over K.written K.faults sink.old sink.new) result.0 }
    ensures kept { result.1 ≡ kept result.0 witness }
    ensures later { K.faults sink.old ≤ K.faults sink.new }
{
    let exit = send(sink, reply.exit(), reply.text());
    (exit, kept(exit, witness))
}

// The record of a run, where its answer was written.
fn kept(exit: Exit, witness: Option<Record>) -> Option<Record>
    ensures { result ≡ kept exit witness }
{
    if exit.ends_run() { witness } else { None }
}
