// Calls.
ghost use Rattle.std.specs.Prelude.{◌≡◌, ◌≤◌, length};
ghost use Rattle.kt_prog.specs.Calls.{main_call};

use arrayvec::ArrayVec;
use kt_law::{ACCESSES, Access, INTS};
use std::marker::Model;

/// What a task is forked with. Contracts see it with its two lists.
#[derive(Debug, Drop)]
pub struct Call {
    /// 0 for `main`, from 1 on for the tasks and loops in the order of the text, behind
    /// [`kt_law::DEFINITIONS`] for the kernels.
    pub task: u32,
    /// The length of the path.
    pub depth: u32,
    /// The indexes of a loop; 0 for all others.
    pub length: u32,
    pub ints: ArrayVec<u64, INTS>,
    pub accesses: ArrayVec<Access, ACCESSES>,
}

impl Model for Call {
    ghost use Rattle.kt_prog.specs.Calls.{CallTree};

    ghost Value = { CallTree };

    ghost view = { λ c. record {
      task = c.task;
      depth = c.depth;
      length = c.length;
      ints = c.ints.items;
      accesses = c.accesses.items;
    } };
}

impl Call {
    /// The call of `main`.
    pub fn of_main() -> Call
        ensures { result ≡ main_call }
    {
        Call {
            task: 0,
            depth: 0,
            length: 0,
            ints: ArrayVec::new(),
            accesses: ArrayVec::new(),
        }
    }

    /// The same call once more, which takes no memory.
    pub fn copied(&self) -> Call
        ensures { result ≡ self.now }
    {
        Call {
            task: self.task,
            depth: self.depth,
            length: self.length,
            ints: copied_ints(self.ints.as_slice()),
            accesses: copied_accesses(self.accesses.as_slice()),
        }
    }
}

fn copied_ints(from: &[u64]) -> ArrayVec<u64, INTS>
    requires { length from.now ≤ INTS }
    ensures { result.items ≡ from.now }
{
    let mut ints = ArrayVec::new();
    match ints.try_extend_from_slice(from) {
        Ok(()) => ints,
        Err(_) => unreachable!(),
    }
}

fn copied_accesses(from: &[Access]) -> ArrayVec<Access, ACCESSES>
    requires { length from.now ≤ ACCESSES }
    ensures { result.items ≡ from.now }
{
    let mut accesses = ArrayVec::new();
    match accesses.try_extend_from_slice(from) {
        Ok(()) => accesses,
        Err(_) => unreachable!(),
    }
}
