//! Laws of the grammar. The functions do nothing; their contracts are the laws.
ghost use Rattle.kt_read.specs.Laws.{JobIsRead, OneJob, OneProgram, OneRefusal, OneText};

/// The grammar is unambiguous: the same tokens are read as one program.
pub fn one_program()
    ensures { OneProgram }
{}

/// So the same bytes are read as one program, which ends in one place.
pub fn one_text()
    ensures { OneText }
{}

/// In particular no bytes are two jobs.
pub fn one_job()
    ensures { OneJob }
{}

/// A job is refused nowhere.
pub fn job_is_read()
    ensures { JobIsRead }
{}

/// Bytes that are refused are refused in one way.
pub fn one_refusal()
    ensures { OneRefusal }
{}

#[cfg(test)]
mod tests {
    use super::*;

    #[test]
    fn laws_have_callers() {
        one_program();
        one_text();
        one_job();
        job_is_read();
        one_refusal();
    }
}
