// What a worker needs memory for.
ghost use Rattle.std.specs.Prelude.{◌≡◌, ◌<◌, ◌^◌, IfOk, []};
ghost use Rattle.kt_prog.specs.Accepted.{IsAccepted};
ghost use Rattle.kt_prog.specs.Objects.{elements_of, objects_of};
ghost use Rattle.kt_intervals.specs.Programs.{HasFirsts};
ghost use Rattle.kt_worker.specs.Programs.{HasRoom};

use crate::stacks::Stack;
use kt_law::{NoMemory, TASKS, WORKERS};
use kt_prog::{Program, first_element, objects};
use kt_ready::Scan;
use kt_tiles::Tiles;
use kt_words::RECORDS;
use std::alloc::Global;

/// The stack of frames, the scan for those who ask, the tiles of kernels, and what a search costs.
#[derive(Drop)]
pub struct Tools {
    pub stack: Stack,
    pub scan: Scan,
    pub tiles: Tiles,
    /// What the worker owes for its last search.
    pub owed: u32,
}

/// All room that a worker takes, made for one program.
#[derive(Drop)]
pub struct Scratch {
    pub tools: Tools,
    /// The number of each object's element 0.
    pub firsts: Vec<u32>,
}

impl Scratch {
    pub fn new(alloc: Global, program: &Program) -> Result<Scratch, NoMemory>
        requires { IsAccepted program.now }
        ensures stack { IfOk result (λ s. s.tools.stack.levels ≡ []) }
        ensures room { IfOk result (λ s. HasRoom program.now s.tools) }
        ensures firsts { IfOk result (λ s. HasFirsts program.now.families s.firsts.items) }
    {
        let stack = Stack::reserve(alloc, (TASKS + WORKERS) as usize)?;
        let scan = Scan::reserve(alloc, objects(program), RECORDS)?;
        let tiles = Tiles::new(alloc)?;
        let firsts = firsts_of(alloc, program)?;
        let tools = Tools {
            stack,
            scan,
            tiles,
            owed: 0,
        };
        Ok(Scratch { tools, firsts })
    }
}

/// The number of each object's element 0.
fn firsts_of(alloc: Global, program: &Program) -> Result<Vec<u32>, NoMemory>
    requires objects { objects_of program.now.families < 2 ^ 32 }
    requires elements { elements_of program.now.families < 2 ^ 32 }
    ensures { IfOk result (λ firsts. HasFirsts program.now.families firsts.items) }
{
    let count = objects(program);
    let mut firsts = Vec::with_capacity(alloc, count as usize)?;
    for object in 0..count {
        firsts.push_reserved(first_element(program, object));
    }
    Ok(firsts)
}
