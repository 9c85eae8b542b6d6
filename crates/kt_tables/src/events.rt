// The events of a core, and why one cannot be done.

use kt_law::F;
use kt_prog::Operation;

/// How far a task is.
#[derive(Clone, Copy, Debug, PartialEq, Eq)]
pub enum Phase {
    Unclaimed,
    Running,
    /// A loop whose indexes are there to be taken.
    Looping,
    /// Its body is done, and a child may not be finished.
    Ended,
    Finished,
}

/// How far an index of a loop is.
#[derive(Clone, Copy, Debug, PartialEq, Eq)]
pub enum Stand {
    Untaken,
    Taken,
    /// Its body has ended.
    Over,
}

/// What may be done of a run. Each names a task by its number, in the order of the forks; `main` has number 0.
#[derive(Debug, Drop)]
pub enum Event {
    /// A claim of the first task of its frame that is not finished.
    ClaimInOrder(u32),
    /// A claim ahead of tasks of its frame, none of which it clashes with.
    ClaimReady(u32),
    /// The next operation of a body.
    Body(u32, Operation),
    /// A loop gets its indexes, in one piece.
    Begin(u32),
    /// The piece of a loop that has this index strictly inside is cut in two before it.
    Split(u32, u32),
    /// The first indexes of the piece that begins at this index are taken, so many.
    Take(u32, u32, u32),
    /// The next operation of an index of a loop.
    Index(u32, u32, Operation),
    /// So many indexes that have ended are retired.
    Retire(u32, u32),
    Finish(u32),
}

/// Why an event was not done.
#[derive(Clone, Copy, Debug, PartialEq, Eq)]
pub enum Why {
    /// The task is in this phase, and the event wants another.
    Found(Phase),
    /// The first task before it in its frame that is not finished.
    Earlier(u32),
    /// The first task before it in its frame that is not finished and clashes with it.
    Clash(u32),
    /// Its first child that is not finished.
    Child(u32),
    /// No piece has the index inside, or begins there and is long enough.
    NoPiece,
    /// The index is not taken, or its body has ended.
    NotTaken(u32),
    /// So many indexes have ended and are not retired.
    NotEnded(u32),
    /// So many indexes are not retired.
    Left(u32),
    NoMemory,
}

/// The fault that ended a body, with the line of the statement that met it.
#[derive(Clone, Copy, Debug, PartialEq, Eq)]
pub struct BodyFault {
    pub law: F,
    pub line: u32,
}
