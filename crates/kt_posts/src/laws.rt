//! The laws of the steps on requests, posts and answers. The functions do nothing; their contracts are the laws.
ghost use Rattle.kt_posts.specs.Laws.{AnswerLoadStays, BusyStays, FailedStays, HoldStays, LeadStays, LookStays, PieceStays, PostLoadStays, PostStays, ReleaseStays, TakeStays, TaskStays, WithdrawStays, WriteStays};

/// The store of a request in the own idle post.
pub fn post_stays()
    ensures { PostStays }
{}

/// The exchange by which a seat leads the requests at a victim.
pub fn lead_stays()
    ensures { LeadStays }
{}

/// The exchange that finds who leads instead.
pub fn busy_stays()
    ensures { BusyStays }
{}

/// A load of the own post.
pub fn post_load_stays()
    ensures { PostLoadStays }
{}

/// A load of the own answer word.
pub fn answer_load_stays()
    ensures { AnswerLoadStays }
{}

/// The exchange that holds a posted request.
pub fn hold_stays()
    ensures { HoldStays }
{}

/// The exchange that finds another word in a post and leaves it.
pub fn look_stays()
    ensures { LookStays }
{}

/// The store that answers a held thief with nothing.
pub fn failed_stays()
    ensures { FailedStays }
{}

/// The store that answers a held thief with a task that is promised to it.
pub fn task_stays()
    ensures { TaskStays }
{}

/// The store of a piece in the answer word of a held thief.
pub fn write_stays()
    ensures { WriteStays }
{}

/// The store that answers a held thief with a piece that was written for it.
pub fn piece_stays()
    ensures { PieceStays }
{}

/// The exchange that takes an answer.
pub fn take_stays()
    ensures { TakeStays }
{}

/// The exchange that withdraws a request.
pub fn withdraw_stays()
    ensures { WithdrawStays }
{}

/// The store that gives up a lead.
pub fn release_stays()
    ensures { ReleaseStays }
{}
