//! Laws of splits and chunks. The functions do nothing; their contracts are the laws.
ghost use Rattle.kt_split.specs.Laws.{OneCut, CutsKeepPositions, CutsAreEven, ChunksKeepPositions};

/// The shares of an interval are determined.
pub fn one_cut()
    ensures { OneCut }
{}

/// A split loses no position, and gives none twice.
pub fn cuts_keep_positions()
    ensures { CutsKeepPositions }
{}

/// The victim's share is as long as the first piece, or longer by one.
pub fn cuts_are_even()
    ensures { CutsAreEven }
{}

/// A chunk loses no position, and leaves none behind it that it took.
pub fn chunks_keep_positions()
    ensures { ChunksKeepPositions }
{}
