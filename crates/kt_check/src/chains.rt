// Declarations in reach by a number that is made of their names.
ghost use Rattle.std.specs.Prelude.{◌≡◌, ℕ, ◌+◌, ◌<◌, ◌≤◌, get_or, length, map, take};
ghost use Rattle.kt_check.specs.Chains.{IsNext, hash_family, hash_from, hash_of, hash_task};
ghost use Rattle.kt_check.specs.declared.chains.TheConstants.{COVERED, HASHES};

use kt_law::OBJECTS;
use kt_prog::{Family, Name, Task};
use std::marker::Model;

/// How many numbers are made of names.
pub const HASHES: usize = 4_093;

/// How many declarations of a kind are in reach. An accepted program has fewer.
pub const COVERED: usize = OBJECTS as usize + 1;

/// The number of a name.
pub fn hash(name: &Name) -> usize
    ensures exact { result ≡ hash_of name.now }
    ensures small { result < HASHES }
{
    let bytes = name.as_bytes();
    let mut hash = 0;
    for byte in bytes {
        hash = (hash * 263 + usize::from(*byte)) % HASHES;
    }
    hash
}

/// Of each number the declarations whose names have it, in order. It takes no memory. Contracts see the numbers of the
/// declarations.
#[derive(Drop)]
pub struct Chains {
    hashes: [u16; COVERED],
    next: [u16; COVERED],
    heads: [u16; HASHES],
    len: usize,
}

impl Model for Chains {
    ghost use Rattle.std.specs.Prelude.{ℕ, ◌≤◌, List, take};
    ghost use Rattle.kt_check.specs.Chains.{IsLinked};
    ghost use Rattle.kt_check.specs.declared.chains.TheConstants.{COVERED};

    ghost Value = { List ℕ };

    ghost view = { λ chains. take chains.len chains.hashes };

    ghost invariant = { λ chains. (chains.len ≤ COVERED)
        × IsLinked (take chains.len chains.hashes) chains.heads chains.next 0 };
}

impl Chains {
    /// The declarations with the first of these numbers.
    pub fn of(hashes: [u16; COVERED], len: usize) -> Chains
        requires len { len ≤ COVERED }
        requires small { (k : ℕ) → k < len → get_or hashes k 0 < HASHES }
        ensures { result ≡ take len hashes }
    {
        let mut heads = [len as u16; HASHES];
        let mut next = [0; COVERED];
        for done in 0..len {
            let at = len - 1 - done;
            let hash = usize::from(hashes[at]);
            next[at] = heads[hash];
            heads[hash] = at as u16;
        }
        Chains {
            hashes,
            next,
            heads,
            len,
        }
    }

    /// How many declarations there are.
    pub fn len(&self) -> usize
        ensures exact { result ≡ length self.now }
        ensures few { result ≤ COVERED }
    {
        self.len
    }

    /// The first declaration with this number, or else where they end.
    pub fn first(&self, hash: usize) -> usize
        requires { hash < HASHES }
        ensures { IsNext self.now hash 0 result }
    {
        usize::from(self.heads[hash])
    }

    /// The next declaration with the number of this one, or else where they end.
    pub fn after(&self, at: usize) -> usize
        requires there { at < length self.now }
        requires room { at < COVERED }
        ensures { IsNext self.now (get_or self.now at 0) (at + 1) result }
    {
        usize::from(self.next[at])
    }
}

pub fn family_chains(families: &[Family]) -> Chains
    ensures exact { result ≡ take COVERED (map hash_family families.now) }
    ensures few { length result ≤ length families.now }
{
    let mut hashes = [0; COVERED];
    let len = COVERED.min(families.len());
    for i in 0..len {
        let family = &families[i];
        hashes[i] = hash(&family.name) as u16;
    }
    Chains::of(hashes, len)
}

pub fn task_chains(tasks: &[Task]) -> Chains
    ensures exact { result ≡ take COVERED (map hash_task tasks.now) }
    ensures few { length result ≤ length tasks.now }
{
    let mut hashes = [0; COVERED];
    let len = COVERED.min(tasks.len());
    for i in 0..len {
        let task = &tasks[i];
        hashes[i] = hash(&task.name) as u16;
    }
    Chains::of(hashes, len)
}
