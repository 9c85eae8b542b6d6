//! Laws of answers. The functions do nothing; their contracts are the laws.
ghost use Rattle.kaapi.specs.Laws.{AnswersWithoutFaults, OneAnswer};

use crate::exits::Exit;
use kt_io::laws::{Answering, ends_without_faults};
use kt_read::laws::{job_is_read, one_job, one_refusal};

/// What the words ask for and a job have one answer.
pub fn one_answer()
    ensures { OneAnswer }
{
    one_job();
    one_refusal();
    job_is_read();
}

/// This program, by what it answers.
struct Kaapi;

impl Answering<Exit> for Kaapi {
    ghost use Rattle.kaapi.specs.Answers.{Answers};

    ghost answers = { Answers };
}

/// The same without workers.
struct Plain;

impl Answering<Exit> for Plain {
    ghost use Rattle.kaapi.specs.Answers.{PlainAnswers};

    ghost answers = { PlainAnswers };
}

/// A call whose streams did not fail wrote the answer to its words and its job, unless there was no memory.
pub fn answers_without_faults()
    ensures { AnswersWithoutFaults }
{
    ends_without_faults::<Exit, Kaapi>();
    ends_without_faults::<Exit, Plain>();
}
