//! What the calls answer.
ghost use Rattle.std.specs.Prelude.{◌≡◌};
ghost use Rattle.kt_posts.specs.declared.answers.Answer.TheVariants as A;

use kt_words::Pair;

/// How an attempt to lead the requests at a victim ended.
#[derive(Clone, Copy, Debug, PartialEq, Eq)]
pub enum Lead {
    /// The seat leads.
    Won,
    /// This worker does.
    Busy(u32),
}

/// What a thief finds in its own post, and what a leader gives.
#[derive(Clone, Copy, Debug, PartialEq, Eq)]
pub enum Answer {
    /// Nobody has answered yet.
    NotYet,
    /// The request is taken back.
    Withdrawn,
    /// There is nothing to give.
    Failed,
    /// The task of this record.
    Task(u32),
    /// A piece of the loop of this record.
    Piece(u32, Pair),
}

// An array of answers is filled with this one where it has none yet.
impl Default for Answer {
    fn default() -> Answer
        ensures { result ≡ A.NotYet }
    {
        Answer::NotYet
    }
}
