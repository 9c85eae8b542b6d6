// Accepted programs from texts.
ghost use Rattle.std.specs.Prelude.{IfOk};
ghost use Rattle.kt_prog.specs.Accepted.{IsAccepted};

use kt_open::open_job;
use kt_prog::Program;
use std::alloc::Global;
use std::test::Fail;

/// The program of a job that is accepted, and its numbers.
pub fn opened(alloc: Global, job: &str) -> Result<(Program, Vec<u64>), Fail>
    ensures { IfOk result (λ opened. IsAccepted opened.0) }
{
    let bytes = job.as_bytes();
    if bytes.len() > 10_000 {
        return Err("a short job".into());
    }
    match open_job(alloc, bytes) {
        Ok(opened) => Ok(opened),
        Err(_) => Err("a job".into()),
    }
}
