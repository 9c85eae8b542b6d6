//! The reader of the whole language.
ghost use Rattle.std.specs.Prelude.{◌≡◌, ◌<◌, ◌≤◌, length, IfErr, IfOk};
ghost use Rattle.kt_tokens.specs.Ahead.{next_of};
ghost use Rattle.kt_read.specs.Jobs.{IsJob};
ghost use Rattle.kt_read.specs.ReadRefusals.{IsReadRefusal, refused_at};

mod arguments;
mod declarations;
mod expressions;
mod memory;
mod operations;
mod params;
mod programs;
mod statements;
#[cfg(test)]
mod tests;

use crate::reader::programs::program;
use kt_law::{P, Refusal};
use kt_prog::Program;
use kt_tokens::{Source, Unread};
use std::alloc::Global;

/// Why no program was read.
#[derive(Clone, Copy, Debug, PartialEq, Eq)]
pub enum ReadRefusal {
    Refused(Refusal),
    NoMemory,
}

/// The program of a job, and the place of the byte behind the word `data`. A refusal is that of the first token that
/// does not go on a text, or that nests too deep.
pub fn read_program(alloc: Global, job: &[u8]) -> Result<(Program, usize), ReadRefusal>
    requires { length job.now < u32.MAX }
    ensures job { IfOk result (λ read. IsJob job.now read.0 read.1) }
    ensures within { IfOk result (λ read. read.1 ≤ length job.now) }
    ensures refused { IfErr result (IsReadRefusal job.now) }
{
    let mut source = Source::new(job);
    match program(alloc, &mut source) {
        Ok(program) => Ok((program, source.at())),
        Err(Unread::Refused) => Err(ReadRefusal::Refused(refusal(&source))),
        Err(Unread::TooDeep) => Err(ReadRefusal::Refused(at_next(P::P14, &source))),
        Err(Unread::NoMemory) => Err(ReadRefusal::NoMemory),
    }
}

/// The refusal of the next token where it cannot stand, or where it is none.
fn refusal(source: &Source<'_>) -> Refusal
    ensures { result ≡ refused_at source.now }
{
    match source.refusal() {
        Some(refusal) => refusal,
        None => at_next(P::P4, source),
    }
}

/// A refusal at the next token.
fn at_next(code: P, source: &Source<'_>) -> Refusal
    ensures { result ≡ record { code = code; place = (next_of source.now).place } }
{
    Refusal {
        code,
        place: source.next().place,
    }
}
