// A job is opened: its program is read and checked, and its data are read.
ghost use Rattle.std.specs.Prelude.{◌≡◌, ◌<◌, ◌≤◌, length, IfErr, IfOk};
ghost use Rattle.kt_prog.specs.Objects.{inputs_of};
ghost use Rattle.kt_open.specs.Answers.{Opened, Opens};
ghost use Rattle.kt_open.specs.Unopened.{IsNoProgram, IsUnopened};

use kt_check::{CheckRefusal, check_indexed};
use kt_print::Line;
use kt_prog::laws::few_objects;
use kt_prog::{Program, inputs};
use kt_read::{ReadRefusal, read_program};
use kt_text::{DataError, read_data};
use std::alloc::Global;

/// Why a job was not opened.
#[derive(Debug, Drop)]
pub enum Unopened {
    /// The line to be written: the refusal of the program, or what is wrong with the data.
    Line(Line),
    NoMemory,
}

/// The accepted program of the job, and where its data begin, which are not looked at.
pub fn open_program(alloc: Global, job: &[u8]) -> Result<(Program, usize), Unopened>
    requires { length job.now < u32.MAX }
    ensures opened { IfOk result
        (λ opened. Opens job.now opened.0 opened.1 (inputs_of opened.0.families)) }
    ensures inside { IfOk result (λ opened. opened.1 ≤ length job.now) }
    ensures unopened { IfErr result (IsNoProgram job.now) }
{
    let (program, from) = match read_program(alloc, job) {
        Ok(read) => read,
        Err(ReadRefusal::Refused(refusal)) => {
            return Err(Unopened::Line(Line::Refused(refusal)));
        }
        Err(ReadRefusal::NoMemory) => return Err(Unopened::NoMemory),
    };
    match check_indexed(alloc, &program) {
        Ok(()) => Ok((program, from)),
        Err(CheckRefusal::Refused(refusal)) => Err(Unopened::Line(Line::Refused(refusal))),
        Err(CheckRefusal::NoMemory) => Err(Unopened::NoMemory),
    }
}

/// The numbers that the program of the job wants, in order. Its data begin at `from`.
pub fn open_data(
    alloc: Global,
    job: &[u8],
    from: usize,
    program: &Program,
) -> Result<Vec<u64>, Unopened>
    requires short { length job.now < u32.MAX }
    requires opens { Opens job.now program.now from (inputs_of program.now.families) }
    requires inside { from ≤ length job.now }
    ensures opened { IfOk result (λ input. Opened job.now program.now input.items) }
    ensures whole { IfOk result (λ input. length input.items ≡ inputs_of program.now.families) }
    ensures unopened { IfErr result (IsUnopened job.now) }
{
    few_objects();
    match read_data(alloc, job, from, inputs(program)) {
        Ok(input) => Ok(input),
        Err(DataError::BadNumber(place)) => Err(Unopened::Line(Line::BadNumber(place))),
        Err(DataError::TooFew(found, wanted)) => Err(Unopened::Line(Line::TooFew(found, wanted))),
        Err(DataError::TooMany(place)) => Err(Unopened::Line(Line::TooMany(place))),
        Err(DataError::NoMemory) => Err(Unopened::NoMemory),
    }
}

/// The accepted program of the job, and the numbers that it wants, in order.
pub fn open_job(alloc: Global, job: &[u8]) -> Result<(Program, Vec<u64>), Unopened>
    requires { length job.now < u32.MAX }
    ensures opened { IfOk result (λ opened. Opened job.now opened.0 opened.1.items) }
    ensures whole { IfOk result (λ opened. length opened.1.items ≡ inputs_of opened.0.families) }
    ensures unopened { IfErr result (IsUnopened job.now) }
{
    let (program, from) = open_program(alloc, job)?;
    let input = open_data(alloc, job, from, &program)?;
    Ok((program, input))
}

#[cfg(test)]
mod tests {
    use super::*;
    use std::test::Fail;

    fn open(alloc: Global, job: &[u8]) -> Result<(Program, Vec<u64>), Unopened> {
        if job.len() > 1_000 {
            return Err(Unopened::NoMemory);
        }
        open_job(alloc, job)
    }

    #[test]
    fn jobs_are_opened(rt: HostRuntime) -> Result<(), Fail> {
        let job = b"object A of 2 input; object B of 1; main {} data 7 41".as_slice();
        let Ok((program, input)) = open(rt.alloc(), job) else {
            return Err("no job".into());
        };
        assert_eq!(rt; program.families.len(), 2);
        assert!(rt; input.as_slice() == [7, 41].as_slice());
        Ok(())
    }

    #[test]
    fn others_have_a_line(rt: HostRuntime) {
        let alloc = rt.alloc();
        assert!(rt;
            matches!(
                open(alloc, b"main {"),
                Err(Unopened::Line(Line::Refused(_)))
            )
        );
        assert!(rt; matches!(open(alloc, b"data"), Err(Unopened::Line(Line::Refused(_)))));
        assert!(rt;
            matches!(
                open(alloc, b"main {} data x"),
                Err(Unopened::Line(Line::TooMany(_)))
            )
        );
        let wants = b"object A of 1 input; main {} data".as_slice();
        assert!(rt; matches!(open(alloc, wants), Err(Unopened::Line(Line::TooFew(0, 1)))));
        let bad = b"object A of 1 input; main {} data x".as_slice();
        assert!(rt; matches!(open(alloc, bad), Err(Unopened::Line(Line::BadNumber(_)))));
    }
}
