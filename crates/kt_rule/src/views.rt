//! What a seat knows.
//!
//! No value of these types is made: a view is what contracts see of a seat, and costs nothing when the program runs. Its parts are nested by the
//! steps that change them.

use kt_law::Access;
use kt_prog::{Call, Program};
use std::collections::LinkedList;

/// What a run is of: the program, the numbers of its input, and how many workers run it.
pub struct Setup {
    pub program: Program,
    pub input: LinkedList<u64>,
    pub workers: u32,
}

/// Where a task lies, and what its record says of it for good.
pub struct Berth {
    /// The number of the record.
    pub at: u32,
    /// The number of the frame that the task is an entry of.
    pub frame: u64,
    /// Its number among the forks of its parent, from 1 on; 0 for `main`.
    pub fork: u32,
    /// The number that was drawn for it.
    pub number: u32,
    /// 0 for `main`, and else 1 plus the number of the parent's record.
    pub parent: u32,
    pub call: Call,
}

/// A task and its path, whose numbers are counted from 0.
pub struct Spot {
    pub berth: Berth,
    pub path: LinkedList<u32>,
}

/// A version of an object, which a body has looked at.
pub struct Looked {
    pub object: u32,
    pub version: u64,
}

/// A task that the seat runs or ran, and what its body did so far.
pub struct Execution {
    pub spot: Spot,
    /// The number of the frame of its children.
    pub frame: u64,
    /// The numbers that its loads found, in order.
    pub answers: LinkedList<u64>,
    /// How many operations it has done.
    pub done: u64,
    /// How many tasks it has forked.
    pub forks: u32,
    /// Whether it is a loop whose indexes have begun: their forks, and its end, are among what it has done.
    pub looping: bool,
    /// The objects whose versions it has raised, and the versions that it has looked at.
    pub bumped: LinkedList<u32>,
    pub looked: LinkedList<Looked>,
}

/// A task that the seat claimed for a thief, and has not answered with yet.
pub struct Promise {
    pub spot: Spot,
    pub thief: u32,
}

/// What a scan found in a record, and what a claim found there afterwards.
pub struct Note {
    pub at: u32,
    /// The state word that its load found, 0 in a record without a task.
    pub word: u64,
    /// Whether the head was loaded, and how many accesses it tells.
    pub headed: bool,
    pub count: u32,
    /// Those of its accesses that were loaded, from the first on.
    pub accesses: LinkedList<Access>,
    /// Whether a claim of the entry was lost, and the word that it found.
    pub lost: bool,
    pub other: u64,
}

/// A field of the next record, which the seat has set.
pub struct Stored {
    pub field: u32,
    pub word: u64,
}

/// The records of the seat's own region.
pub struct Region {
    /// The tasks that lie there, by position.
    pub spots: LinkedList<Spot>,
    /// All tasks that the seat has published.
    pub mine: LinkedList<Spot>,
    /// The fields that are set in the record behind them.
    pub built: LinkedList<Stored>,
}

/// The tasks that went through the seat's hands.
pub struct Tasks {
    /// The paths of those that it claimed, for itself or for a thief.
    pub claimed: LinkedList<LinkedList<u32>>,
    /// Those that it claimed for thieves and holds, and those that it was given and has not begun.
    pub promised: LinkedList<Promise>,
    pub given: LinkedList<Spot>,
    /// Those that it runs, the last begun first: the head is the running body.
    pub running: LinkedList<Execution>,
    /// Those that seats joined to it left unfinished.
    pub halted: LinkedList<Execution>,
    /// Those that ran to their end, the last finished first.
    pub ran: LinkedList<Execution>,
    /// How many it has begun.
    pub begun: u64,
}

/// What the seat has seen of the others.
pub struct Seen {
    /// The paths of tasks that it knows finished.
    pub known: LinkedList<LinkedList<u32>>,
    /// The notes of its scan, the newest first.
    pub notes: LinkedList<Note>,
    /// Whether it knows that the stop word is 1.
    pub stop: bool,
    /// Tasks above one that it has in hand, whose records it has found.
    pub line: LinkedList<Spot>,
}

/// The task numbers that the seat has drawn.
pub struct Draws {
    /// The paths of the bodies whose next fork has a number that is not published yet.
    pub hands: LinkedList<LinkedList<u32>>,
    /// How often a draw was over the limit.
    pub over: u32,
}

/// What the seat found in a worker's post word when it looked for a request to hold.
pub struct Found {
    pub worker: u32,
    pub word: u64,
}

/// A piece of a loop that was written for a held thief.
pub struct Wrote {
    pub thief: u32,
    pub piece: u64,
}

/// What the seat knows of requests.
pub struct Desk {
    /// Whether its own post is idle, and at whom it asked.
    pub free: bool,
    pub asked: u32,
    /// Whether it saw an answer on its own post, the word that it saw there, and the piece that belongs to it.
    pub saw: bool,
    pub word: u64,
    pub got: bool,
    pub piece: u64,
    /// Whether it leads the requests at a victim, and which.
    pub leads: bool,
    pub victim: u32,
    /// The thieves whose requests it holds.
    pub held: LinkedList<u32>,
    /// The posts that it looked at since it leads, and the pieces that it wrote.
    pub found: LinkedList<Found>,
    pub wrote: LinkedList<Wrote>,
}

/// Positions of a loop, from the lower up to the higher, the higher not included.
pub struct Share {
    /// The loop.
    pub spot: Spot,
    pub low: u32,
    pub high: u32,
}

/// An index of a loop that the seat has in hand or ran, and what its body did so far.
pub struct IndexRun {
    /// The loop.
    pub spot: Spot,
    pub index: u32,
    /// Its place in the count of all positions.
    pub position: u32,
    /// The numbers that its loads found, in order.
    pub answers: LinkedList<u64>,
    /// How many operations it has done.
    pub done: u64,
}

/// What a split has seen of a victim.
pub struct Sight {
    pub victim: u32,
    /// The interval that it found.
    pub low: u32,
    pub high: u32,
    /// The home word that it found afterwards.
    pub home: Option<u32>,
}

/// What the seat has in hand of loops.
pub struct LoopHands {
    /// Positions that it drew for the loop which it runs, as long as that one has not begun, and whether its record tells the first.
    pub pending: LinkedList<Share>,
    pub placed: bool,
    /// Pieces that are in no word.
    pub pieces: LinkedList<Share>,
    /// The indexes that it took and has not retired, and those that it retired.
    pub taken: LinkedList<IndexRun>,
    pub retired: LinkedList<IndexRun>,
    /// The paths of loops whose indexes it knows to be retired, all of them.
    pub emptied: LinkedList<LinkedList<u32>>,
    /// Whether it knows that its own interval is empty, and its own home word.
    pub free: bool,
    pub home: u32,
    /// The victim that it is about to split.
    pub sight: Option<Sight>,
    /// How often a draw of positions was over the limit.
    pub over: u32,
}

/// What a seat knows.
pub struct View {
    /// None before the first step of all.
    pub setup: Option<Setup>,
    pub worker: u32,
    /// How many seats it stands for, and how many there are where it makes them.
    pub parts: u32,
    pub made: u32,
    pub region: Region,
    pub tasks: Tasks,
    pub seen: Seen,
    pub draws: Draws,
    pub desk: Desk,
    pub loops: LoopHands,
}
