// Whole generated jobs.
ghost use Rattle.std.specs.Prelude.{◌≡◌, IfOk};
ghost use Rattle.kt_print.specs.CanonicalText.{canonical_text};
ghost use Rattle.kt_prog.specs.Accepted.{IsAccepted};
ghost use Rattle.kt_canon.specs.Laws.{IsWritten};
ghost use Rattle.kt_gen.specs.Jobs.{IsReadAs, IsSize, job_text};
ghost use Rattle.kt_gen.specs.Numbers.{numbers_of};
ghost use Rattle.kt_gen.specs.Texts.{program_text};
ghost use Rattle.kt_gen.specs.Trees.{program_of};

use crate::numbers::Drawing;
use crate::programs::program;
use kt_law::NoMemory;
use kt_print::print_program;
use kt_prog::Program;
use kt_text::Kind;
use std::alloc::Global;

/// The generated job of this kind, size and number: its program, and the numbers of its input families in order.
pub fn make(
    alloc: Global,
    kind: Kind,
    size: u32,
    number: u64,
) -> Result<(Program, Vec<u64>), NoMemory>
    requires { IsSize kind size }
    ensures program { IfOk result (λ made. made.0 ≡ program_of kind size) }
    ensures text { IfOk result (λ made. canonical_text made.0 ≡ program_text kind size) }
    ensures written { IfOk result (λ made. IsWritten made.0) }
    ensures accepted { IfOk result (λ made. IsAccepted made.0) }
    ensures numbers { IfOk result (λ made. made.1.items ≡ numbers_of kind size number) }
    ensures read { IfOk result (λ made. IsReadAs (job_text kind size number) made.0 made.1.items) }
{
    let size = u64::from(size);
    let program = program(alloc, kind, size)?;
    let numbers = Drawing { kind, size, number }.numbers(alloc)?;
    Ok((program, numbers))
}

/// The bytes of that job: the canonical text of its program, and then a line for each member of each input family.
pub fn job_bytes(alloc: Global, kind: Kind, size: u32, number: u64) -> Result<Vec<u8>, NoMemory>
    requires { IsSize kind size }
    ensures { IfOk result (λ job. job.items ≡ job_text kind size number) }
{
    let (program, numbers) = make(alloc, kind, size, number)?;
    let mut job = print_program(alloc, &program)?;
    let size = u64::from(size);
    let mut lines = Drawing { kind, size, number }.lines(alloc, &numbers)?;
    job.append(&mut lines)?;
    Ok(job)
}
