// The links of the tasks of a core to their parents and children.
ghost use Rattle.std.specs.Prelude.{ℕ, ◌≡◌, ◌≤◌, ◌<◌, ◌++◌, ◌∷◌, ◌^◌, [], drop, All, IfErr, IfOk, Some, false, length, slice_get, slice_set, slice_index};
ghost use Rattle.kt_core.specs.Links.{AreDone, first_below, fresh_links, is_done, is_in_the_way, with_child, with_link, with_settled};
ghost use Rattle.kt_tables.specs.Tables.{is_open};

use crate::claims::calls_clash;
use crate::rows::TaskRow;
use kt_law::NoMemory;
use kt_prog::Call;
use std::alloc::Global;
use std::marker::Model;

/// The number of a task's parent, None for `main`, and those of its children in order. So many of the children, the first ones, are
/// finished: a search begins behind them.
#[derive(Drop)]
pub struct Link {
    parent: Option<u32>,
    children: Vec<u32>,
    settled: usize,
}

impl Model for Link {
    ghost use Rattle.kt_core.specs.Links.{LinkState};

    ghost Value = { LinkState };

    ghost view = { λ l. record { parent = l.parent; children = l.children.items; settled = l.settled } };
}

impl Link {
    pub fn new(alloc: Global, parent: Option<u32>) -> Link
        ensures { result ≡ fresh_links parent }
    {
        Link {
            parent,
            children: Vec::new(alloc),
            settled: 0,
        }
    }

    pub fn parent(&self) -> Option<u32>
        ensures { result ≡ self.now.parent }
    {
        self.parent
    }

    pub fn children(&self) -> &[u32]
        ensures { result.now ≡ self.now.children }
    {
        self.children.as_slice()
    }

    /// The children behind those that are known to be finished.
    pub fn left(&self) -> &[u32]
        requires { self.now.settled ≤ length self.now.children }
        ensures { result.now ≡ drop self.now.settled self.now.children }
    {
        &self.children.as_slice()[self.settled..]
    }

    pub fn settled(&self) -> usize
        ensures { result ≡ self.now.settled }
    {
        self.settled
    }

    pub fn set_settled(&mut self, settled: usize)
        ensures { self.new ≡ with_settled settled self.old }
    {
        self.settled = settled;
    }

    /// A child more. Want of memory changes nothing.
    pub fn add(&mut self, number: u32) -> Result<(), NoMemory>
        ensures done { IfOk result (λ _. self.new ≡ with_child number self.old) }
        ensures same { IfErr result (λ _. self.new ≡ self.old) }
    {
        self.children.push(number)?;
        Ok(())
    }
}

/// The first of the numbers that is below the bound and that of a task which is not finished.
pub fn first_open(tasks: &[TaskRow], numbers: &[u32], bound: u32) -> Option<u32>
    requires { All (λ k. k < length tasks.now) numbers.now }
    ensures { result ≡ first_below bound is_open tasks.now numbers.now }
{
    for number in numbers {
        if *number >= bound {
            return None;
        }
        if !tasks[*number as usize].phase().is_finished() {
            return Some(*number);
        }
    }
    None
}

/// How many of the numbers, the first ones, are those of finished tasks, where so many are known to be.
pub fn count_settled(tasks: &[TaskRow], numbers: &[u32], known: usize) -> usize
    requires there { All (λ k. k < length tasks.now) numbers.now }
    requires within { known ≤ length numbers.now }
    requires done { AreDone tasks.now numbers.now known }
    ensures within { result ≤ length numbers.now }
    ensures done { AreDone tasks.now numbers.now result }
    ensures next { (k : ℕ) → slice_get numbers.now result ≡ Some k → is_done tasks.now k ≡ false }
{
    for place in known..numbers.len() {
        if !tasks[numbers[place] as usize].phase().is_finished() {
            return place;
        }
    }
    numbers.len()
}

/// The first of the numbers that is below the bound and that of a task which is not finished and clashes with the call.
pub fn first_clash(tasks: &[TaskRow], numbers: &[u32], bound: u32, call: &Call) -> Option<u32>
    requires { All (λ k. k < length tasks.now) numbers.now }
    ensures { result ≡ first_below bound (is_in_the_way call.now) tasks.now numbers.now }
{
    for number in numbers {
        if *number >= bound {
            return None;
        }
        if is_in_the_way(&tasks[*number as usize], call) {
            return Some(*number);
        }
    }
    None
}

fn is_in_the_way(row: &TaskRow, call: &Call) -> bool
    ensures { result ≡ is_in_the_way call.now row.now }
{
    !row.phase.is_finished() && calls_clash(&row.call, call)
}

/// A task more, as the last child of another. Want of memory changes nothing.
pub fn add_child(
    alloc: Global,
    tasks: &mut Vec<TaskRow>,
    links: &mut Vec<Link>,
    parent: u32,
    row: TaskRow,
) -> Result<(), NoMemory>
    requires there { parent < length links.old.items }
    requires few { length tasks.old.items < 2 ^ 32 }
    ensures tasks { IfOk result (λ _. tasks.new.items ≡ tasks.old.items ++ row ∷ []) }
    ensures links { IfOk result (λ _.
        links.new.items ≡ with_link (length tasks.old.items) parent links.old.items) }
    ensures same_tasks { IfErr result (λ _. tasks.new.items ≡ tasks.old.items) }
    ensures same_links { IfErr result (λ _. links.new.items ≡ links.old.items) }
{
    tasks.reserve(1)?;
    links.reserve(1)?;
    links[parent as usize].add(tasks.len() as u32)?;
    tasks.push_reserved(row);
    links.push_reserved(Link::new(alloc, Some(parent)));
    Ok(())
}
