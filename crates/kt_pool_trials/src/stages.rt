// Where a worker stands that is driven step by step.

use kt_words::{Pair, StateWord};

/// Where a worker stands. All that it asks is asked at worker 0.
#[derive(Clone, Copy, Debug, PartialEq, Eq)]
pub enum Stage {
    /// It has made no step.
    New,
    /// It is between two turns.
    Resting,
    /// Its request stands in its post.
    Asking,
    /// It leads the requests.
    Leading,
    /// It was given the task of this record.
    Given(u32),
    /// It was given this piece of the loop of this record.
    Piece(u32, Pair),
    /// It has begun the task of this record, which is or is not the next entry of its topmost frame.
    Begun(u32, bool),
    /// It has noted the entry of this record, and by its notes the entry is ready.
    Noted(u32, StateWord),
    /// Its own interval is of the loop of this record.
    Looping(u32),
    /// And it has taken these positions of it.
    Taken(u32, Pair),
    /// It can be driven no further.
    Over,
}
