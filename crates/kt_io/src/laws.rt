//! Laws of the words in which calls over a source and a sink are told. The functions do nothing;
//! their contracts are the laws.
ghost use Rattle.std.specs.Prelude.{ℕ, List};
ghost use Rattle.kt_io.specs.Ending.{Said};
ghost use Rattle.kt_io.specs.Laws.{ConstantCountNeverRose, EndsWithoutFaults};

/// A program: what its words and a job are answered. `X` is the type of its exits.
/// A crate that uses the law names its program by a type of its own.
pub trait Answering<X> {
    ghost answers: { List (List ℕ) → List ℕ → Said X → Type 0 };
}

/// A stream whose count of faults stays where it is, below its greatest value, has not failed.
pub fn constant_count_never_rose()
    ensures { ConstantCountNeverRose }
{}

/// A call whose streams did not fail wrote an answer whole, unless there was no memory.
pub fn ends_without_faults<X, A: Answering<X>>()
    ensures { EndsWithoutFaults X A.answers }
{}
