// A whole call: words and bytes in, an exit and bytes out.
ghost use Rattle.std.specs.Prelude.{◌≡◌, ◌≤◌, false};
ghost use Rattle.kt_io.specs.Ending.{EndsWith, ForJob};
ghost use Rattle.kt_io.specs.Over.{over};
ghost use Rattle.kt_text.specs.Words.{command_of, texts_of};
ghost use Rattle.kaapi.specs.Answers.{PlainAnswers, asks_job, faults, plain};
ghost use Rattle.kaapi.specs.Headline.{Headline};

use crate::asked::{Asked, Choice, Generated, Way};
use crate::demos::run_generated;
use crate::exits::Exit;
use crate::sending::{send_generated, tell};
use crate::sources::{answer_source, run_source};
use kt_io::{Sink, Source};
use kt_pool::Record;
use kt_print::Line;
use kt_prog::laws::loads_find_last_written;
use kt_text::{Command, Usage, read_words};
use kt_worker::Gate;
use std::alloc::Global;
use std::sync::Wait;
use std::thread::Threads;

/// Answers the job that the source gives, as the words ask. The answer is whole before the first byte of it is written.
/// Where the words do not ask for an answer to a job, the source is left alone.
///
/// A run by workers tells the gate of each task that is about to run, and may wait: nothing says that it returns. Its record, which only
/// the close of the workers' table makes, is handed back where the answer of the run was written.
pub fn top<R: Threads + Wait + Sync, S: Source, K: Sink, G: Gate + Sync>(
    rt: &R,
    alloc: Global,
    words: &[String],
    source: &mut S,
    sink: &mut K,
    gate: &G,
) -> (Exit, Option<Record>)
    ensures headline { ForJob (S.left source.old) (λ job. Headline (texts_of words.now) job
        (over S.left S.faults source.old source.new)
        (over K.written K.faults sink.old sink.new) result.0 result.1) }
    ensures unread { asks_job (command_of (texts_of words.now)) ≡ false → source.new ≡ source.old }
    ensures source_later { S.faults source.old ≤ S.faults source.new }
    ensures sink_later { K.faults sink.old ≤ K.faults sink.new }
{
    loads_find_last_written();
    match read_words(words) {
        Ok(Command::Run(workers)) => run_source(rt, alloc, workers, source, sink, gate),
        Ok(Command::Demo(kind, size, number, workers)) => {
            let job = Generated { kind, size, number };
            run_generated(rt, alloc, workers, job, sink, gate)
        }
        // Each form by itself, since in a joint arm nothing is known of the form.
        Ok(Command::Check) => (top_plain(alloc, words, source, sink), None),
        Ok(Command::Seq) => (top_plain(alloc, words, source, sink), None),
        Ok(Command::Sim(..)) => (top_plain(alloc, words, source, sink), None),
        Ok(Command::Gen(..)) => (top_plain(alloc, words, source, sink), None),
        Err(Usage) => (top_plain(alloc, words, source, sink), None),
    }
}

/// The same for words that ask for no workers, without waiting. Words that ask for workers are answered as words that ask for nothing.
pub fn top_plain<S: Source, K: Sink>(
    alloc: Global,
    words: &[String],
    source: &mut S,
    sink: &mut K,
) -> Exit
    ensures answers { ForJob (S.left source.old)
        (λ job. EndsWith faults (PlainAnswers (texts_of words.now) job)
        (over S.left S.faults source.old source.new)
        (over K.written K.faults sink.old sink.new) result) }
    ensures unread { asks_job (plain (command_of (texts_of words.now))) ≡ false
        → source.new ≡ source.old }
    ensures source_later { S.faults source.old ≤ S.faults source.new }
    ensures sink_later { K.faults sink.old ≤ K.faults sink.new }
{
    match read_words(words) {
        Ok(Command::Check) => answer_source(alloc, Asked::Check, source, sink),
        Ok(Command::Seq) => answer_source(alloc, Asked::Run(Way::Owner), source, sink),
        Ok(Command::Sim(workers, number)) => answer_source(
            alloc,
            Asked::Run(Way::Events(Choice { workers, number })),
            source,
            sink,
        ),
        Ok(Command::Gen(kind, size, number)) => send_generated(alloc, kind, size, number, sink),
        Ok(Command::Run(_)) => tell(alloc, Exit::Usage, &Line::Usage, sink),
        Ok(Command::Demo(..)) => tell(alloc, Exit::Usage, &Line::Usage, sink),
        Err(Usage) => tell(alloc, Exit::Usage, &Line::Usage, sink),
    }
}
