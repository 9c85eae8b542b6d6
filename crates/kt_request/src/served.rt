//! What `serve` answers.

use arrayvec::ArrayVec;
use kt_law::WORKERS;
use kt_loops::Divided;
use kt_posts::Answer;

/// How many thieves may be held at one time: every worker, the victim and the leader among them.
pub const THIEVES: usize = WORKERS as usize;

/// The thieves whose requests were held, in rising order, what each of them was answered, and what the split came to that was tried where
/// a thief was left without a task.
#[derive(Debug, Drop)]
pub struct Served {
    pub held: ArrayVec<u32, THIEVES>,
    pub answers: ArrayVec<Answer, THIEVES>,
    pub cut: Option<Divided>,
}
