//! Laws of loops. The functions do nothing; their contracts are the laws.
ghost use Rattle.kt_pieces.specs.Laws.{TakenOnce, NoneLeft, LeftIsEnough};

/// No index is in hand twice, nor in hand and retired.
pub fn taken_once()
    ensures { TakenOnce }
{}

/// A loop with nothing left has run all its indexes.
pub fn none_left()
    ensures { NoneLeft }
{}

/// The count of indexes that are left never goes below 0.
pub fn left_is_enough()
    ensures { LeftIsEnough }
{}
