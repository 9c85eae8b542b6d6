//! The laws of the steps on loops. The functions do nothing; their contracts are the laws. That of operations of indexes is in `kt_cells`.
ghost use Rattle.kt_loops.specs.Laws.{BeginEnters, ChunkEnters, DrawStays, EmptyStays, FillStays, FirstStays, HomeSightStays, HomeStays, LastRetireEnters, LeftStays, LoopFinishEnters, MissedSplitStays, OverDrawStays, RetireEnters, ShortSightStays, SightStays, SplitStays};

/// The fetch that draws the positions of a loop.
pub fn draw_stays()
    ensures { DrawStays }
{}

/// The same, where the count goes over its limit.
pub fn over_draw_stays()
    ensures { OverDrawStays }
{}

/// The store of a loop's first position in its record.
pub fn first_stays()
    ensures { FirstStays }
{}

/// The store of a record's number in the own home word.
pub fn home_stays()
    ensures { HomeStays }
{}

/// The store of all positions of a loop in the own interval enters the forks of its indexes and the end of its body.
pub fn begin_enters()
    ensures { BeginEnters }
{}

/// The store of a piece in hand in the own interval.
pub fn fill_stays()
    ensures { FillStays }
{}

/// The load that finds the own interval empty.
pub fn empty_stays()
    ensures { EmptyStays }
{}

/// The exchange that takes the first positions of the own interval enters a claim of each index.
pub fn chunk_enters()
    ensures { ChunkEnters }
{}

/// The load of a victim's interval that may be split.
pub fn sight_stays()
    ensures { SightStays }
{}

/// The load of a victim's interval that is too short.
pub fn short_sight_stays()
    ensures { ShortSightStays }
{}

/// The load of a victim's home word.
pub fn home_sight_stays()
    ensures { HomeSightStays }
{}

/// The exchange of a victim's interval that cuts pieces from its end.
pub fn split_stays()
    ensures { SplitStays }
{}

/// The exchange that finds another word there.
pub fn missed_split_stays()
    ensures { MissedSplitStays }
{}

/// The fetch of the count of indexes that are left enters the end of each index that is retired, and its finish.
pub fn retire_enters()
    ensures { RetireEnters }
{}

/// The same, where no more were left.
pub fn last_retire_enters()
    ensures { LastRetireEnters }
{}

/// The load of that count, where none are left.
pub fn left_stays()
    ensures { LeftStays }
{}

/// The store of Finished for a loop of which nothing is left enters its finish.
pub fn loop_finish_enters()
    ensures { LoopFinishEnters }
{}
