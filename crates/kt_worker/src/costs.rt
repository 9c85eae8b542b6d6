// What a search for work costs, and how a thief pays for it.
//
// A search goes through all records of a worker, and whoever's entries it claims waits for its end. Where the tasks of a large frame are short, thieves
// that search one time after another hold up all: the first ready entries, which they claim, are the owner's next. So a worker owes for each of its
// searches, by the records that it passed, and searches again only once that is paid: by the tasks that it ran since, or else by pauses. A search that
// claimed a task is the dearer the more workers there are, so that all of them together hold up an owner for a small part of its time.
//
// All costs are in loads of an element, roughly.

use crate::asking::Gotten;

/// A record that a search passes.
const RECORD: u32 = 4;
/// So many times as dear is a record, for each worker, where a task was claimed.
const CLAIMED: u32 = 32;
/// The beginning and the end of a task.
const TASK: u32 = 64;
/// A pause.
const PAUSE: u32 = 64;

/// What a worker owes for a search that passed so many records, where there are so many workers. A piece of a loop is worth any search.
pub fn after_search(found: Gotten, records: usize, workers: u32) -> u32 {
    let passed = u32::try_from(records)
        .unwrap_or(u32::MAX)
        .saturating_mul(RECORD);
    match found {
        Gotten::Nothing => passed,
        Gotten::Task(_) => passed.saturating_mul(CLAIMED).saturating_mul(workers),
        Gotten::Piece(_, _) => 0,
    }
}

/// What it owes after a task whose body did so many operations on elements.
pub fn after_task(owed: u32, elements: u32) -> u32 {
    owed.saturating_sub(TASK.saturating_add(elements))
}

/// What it owes after a pause.
pub fn after_pause(owed: u32) -> u32 {
    owed.saturating_sub(PAUSE)
}
