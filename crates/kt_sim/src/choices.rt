// What is kept beside the core to choose the next event by.
ghost use Rattle.std.specs.Prelude.{◌≡◌, ◌<◌, ◌≤◌, ℕ, IfNone, IfOk, IfSome, length};
ghost use Rattle.kt_sim.specs.Choosing.{AreBelow};

use kt_law::NoMemory;
use rand::RngExt;
use rand_core::SeedableRng;
use rand_xoshiro::Xoshiro256PlusPlus;
use std::alloc::Global;

/// Tasks are mostly claimed among so many of those that wait, the last ones.
const NEAR: usize = 64;

/// An index of a loop that was taken.
#[derive(Clone, Copy)]
pub struct Held {
    pub task: u32,
    pub index: u32,
}

/// Tasks that may be unclaimed, those that come first in the reference run towards the end; tasks that may run; tasks that may loop;
/// indexes that may be under way; the task that forked each (`main` for itself); and the numbers to choose by.
#[derive(Drop)]
pub struct Choices {
    pub waiting: Vec<u32>,
    pub running: Vec<u32>,
    pub looping: Vec<u32>,
    pub held: Vec<Held>,
    pub parents: Vec<u32>,
    pub random: Xoshiro256PlusPlus,
}

impl Choices {
    /// As a run begins.
    pub fn new(alloc: Global, number: u64) -> Result<Choices, NoMemory>
        ensures { IfOk result (AreBelow 1) }
    {
        let mut waiting = Vec::new(alloc);
        waiting.push(0)?;
        let running = Vec::new(alloc);
        let looping = Vec::new(alloc);
        let held = Vec::new(alloc);
        let mut parents = Vec::new(alloc);
        parents.push(0)?;
        let random = Xoshiro256PlusPlus::seed_from_u64(number);
        Ok(Choices {
            waiting,
            running,
            looping,
            held,
            parents,
            random,
        })
    }

    /// How many tasks may run or loop.
    pub fn under_way(&self) -> usize {
        self.running.len().saturating_add(self.looping.len())
    }

    /// Takes some task out of those that run.
    pub fn take_running(&mut self) -> Option<u32>
        ensures below { (tasks : ℕ) → AreBelow tasks self.old → AreBelow tasks self.new }
        ensures inside { (tasks : ℕ) → AreBelow tasks self.old
            → IfSome result (λ task. task < tasks) }
    {
        match pick(self.running.len(), &mut self.random) {
            None => None,
            Some(place) => Some(self.running.swap_remove(place)),
        }
    }

    /// Takes some index out of those that are held.
    pub fn take_held(&mut self) -> Option<Held>
        ensures below { (tasks : ℕ) → AreBelow tasks self.old → AreBelow tasks self.new }
        ensures inside { (tasks : ℕ) → AreBelow tasks self.old
            → IfSome result (λ held. held.task < tasks) }
    {
        match pick(self.held.len(), &mut self.random) {
            None => None,
            Some(place) => Some(self.held.swap_remove(place)),
        }
    }

    /// Takes note of indexes that were taken, so many from one on.
    pub fn note_taken(&mut self, task: u32, from: u32, count: u32) -> Result<(), NoMemory>
        ensures { (tasks : ℕ) → AreBelow tasks self.old → task < tasks
            → IfOk result (λ _. AreBelow tasks self.new) }
    {
        for turn in 0..count {
            let index = from.saturating_add(turn);
            self.held.push(Held { task, index })?;
        }
        Ok(())
    }

    /// Takes note of the tasks from one number on, which this task has forked.
    pub fn note_forks(&mut self, task: u32, before: u32, tasks: u32) -> Result<(), NoMemory>
        requires below { AreBelow before self.old }
        requires there { task < before }
        requires more { before ≤ tasks }
        ensures { IfOk result (λ _. AreBelow tasks self.new) }
    {
        for number in before..tasks {
            // the first of them is to stand last
            self.waiting.push(before + (tasks - 1 - number))?;
            self.parents.push(task)?;
        }
        Ok(())
    }

    /// A number from 1 up to the bound, or 1.
    pub fn some_count(&mut self, most: u32) -> u32
        ensures some { 1 ≤ result }
        ensures few { 1 ≤ most → result ≤ most }
        ensures same { (tasks : ℕ) → AreBelow tasks self.old → AreBelow tasks self.new }
    {
        if most == 0 {
            return 1;
        }
        1 + self.random.random_range(0..most)
    }

    /// Whether a coin falls on its head.
    pub fn flips(&mut self) -> bool
        ensures { (tasks : ℕ) → AreBelow tasks self.old → AreBelow tasks self.new }
    {
        self.random.random_range(0..2u32) == 0
    }
}

/// The place of some task that waits, of so many: mostly of one of the last, before which few of its frame are open, so that a claim has
/// few to pass; and now and then of any.
pub fn pick_waiting(count: usize, random: &mut Xoshiro256PlusPlus) -> Option<usize>
    ensures inside { IfSome result (λ place. place < count) }
    ensures none { IfNone result (count ≡ 0) }
{
    let reach = reach(count, random);
    match pick(reach, random) {
        None => None,
        Some(back) => Some(count - 1 - back),
    }
}

/// Among how many of the last tasks that wait, of so many, one is picked.
fn reach(count: usize, random: &mut Xoshiro256PlusPlus) -> usize
    ensures within { result ≤ count }
    ensures some { result ≡ 0 → count ≡ 0 }
{
    if random.random_range(0..NEAR) == 0 {
        return count;
    }
    count.min(NEAR)
}

/// A number below another, if there is one.
pub fn pick(count: usize, random: &mut Xoshiro256PlusPlus) -> Option<usize>
    ensures inside { IfSome result (λ place. place < count) }
    ensures none { IfNone result (count ≡ 0) }
{
    if count == 0 {
        return None;
    }
    Some(random.random_range(0..count))
}
