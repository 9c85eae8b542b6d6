// The names of a body, and the steps that are left to it.
ghost use Rattle.std.specs.Prelude.{◌≡◌, ◌<◌, [], ◌∷◌, ◌++◌, length};
ghost use Rattle.std.specs.Str.{bytes_eq};
ghost use Rattle.kt_law.specs.declared.limits.TheConstants.{STEPS};
ghost use Rattle.kt_prog.specs.Locals.{local_of};
ghost use Rattle.kt_prog.specs.Lookups.{assign};
ghost use Rattle.kt_prog.specs.Script.{give};
ghost use Rattle.kt_prog.specs.Statements.{at_locals, scoped, step_at};
ghost use Rattle.kt_prog.specs.declared.scope.TheConstants.{NAMES};
ghost use Rattle.kt_body.specs.Scenes.{Gives, IsSmall, IsSmallIn, named, renamed};

use crate::ops::Early;
use arrayvec::ArrayVec;
use kt_law::{F, STEPS};
use kt_prog::{Bound, NAMES, Name};
use std::marker::Model;

/// A name of the text with what it stands for. It keeps no copy of the name.
#[derive(Drop)]
pub struct Slot<'a> {
    name: &'a [u8],
    bound: Bound,
}

impl<'a> Model for Slot<'a> {
    ghost use Rattle.kt_prog.specs.declared.scope.Local.{Local};

    ghost Value = { Local };

    ghost view = { λ s. record { name = s.name.now; bound = s.bound } };
}

impl<'a> Slot<'a> {
    fn is(&self, name: &Name) -> bool
        ensures { result ≡ bytes_eq self.now.name name.now }
    {
        self.name == name.as_bytes()
    }
}

// An array of names is filled with this one where it has none yet.
impl<'a> Default for Slot<'a> {
    fn default() -> Slot<'a> {
        Slot {
            name: b"".as_slice(),
            bound: Bound::Number(0),
        }
    }
}

/// What the names stand for, in the order in which the text binds them, and how many more steps may be made.
#[derive(Drop)]
pub struct Walk<'a> {
    locals: ArrayVec<Slot<'a>, NAMES>,
    steps: u32,
}

impl<'a> Model for Walk<'a> {
    ghost use Rattle.kt_prog.specs.Statements.{State};
    ghost use Rattle.kt_body.specs.Scenes.{AllSmall};

    ghost Value = { State };

    ghost view = { λ w. record { locals = w.locals.items; steps = w.steps } };

    ghost invariant = { λ w. AllSmall w.locals.items };
}

fn bound_in(locals: &[Slot], name: &Name) -> Option<Bound>
    ensures { result ≡ local_of locals.now name.now }
{
    for local in locals {
        if local.is(name) {
            return Some(local.bound);
        }
    }
    None
}

fn set_in(locals: &mut [Slot], name: &Name, n: u64)
    ensures { locals.new ≡ assign locals.old name.now n }
{
    for i in 0..locals.len() {
        let local = &mut locals[i];
        if local.is(name) {
            local.bound = Bound::Number(n);
            return;
        }
    }
}

impl<'a> Walk<'a> {
    /// No names, and all the steps that a body may make.
    pub fn new() -> Walk<'a>
        ensures { result ≡ record { locals = []; steps = STEPS } }
    {
        Walk {
            locals: ArrayVec::new(),
            steps: STEPS,
        }
    }

    /// What the name stands for, if it is one of a body's own.
    pub fn find(&self, name: &Name) -> Option<Bound>
        ensures value { result ≡ local_of self.now.locals name.now }
        ensures small { IsSmallIn result }
    {
        bound_in(self.locals.as_slice(), name)
    }

    /// How many names there are.
    pub fn len(&self) -> usize
        ensures { result ≡ length self.now.locals }
    {
        self.locals.len()
    }

    /// One name more.
    pub fn give(&mut self, name: &'a Name, bound: Bound)
        requires room { length self.old.locals < NAMES }
        requires small { IsSmall bound }
        ensures { self.new ≡ at_locals self.old
            (self.old.locals ++ record { name = name.now; bound = bound } ∷ []) }
    {
        self.locals.push(Slot {
            name: name.as_bytes(),
            bound,
        });
    }

    /// One number more, for which there is room in an accepted program.
    pub fn add(&mut self, name: &'a Name, n: u64)
        ensures { named self.old name.now n ≡ give self.new }
    {
        if self.locals.len() < NAMES {
            self.give(name, Bound::Number(n));
        }
    }

    /// Another number for a name.
    pub fn set(&mut self, name: &Name, n: u64)
        ensures { renamed self.old name.now n ≡ give self.new }
    {
        set_in(self.locals.as_mut_slice(), name, n);
    }

    /// Forgets the names behind the first `len`.
    pub fn cut(&mut self, len: usize)
        ensures { self.new ≡ scoped len self.old }
    {
        self.locals.truncate(len);
    }

    /// A step more. F6 where no more may be made.
    pub fn begin(&mut self, line: u32) -> Result<(), Early>
        ensures { Gives (step_at self.old.steps line self.old) self.new result }
    {
        if self.steps == 0 {
            return Err(Early::Fault(F::F6, line));
        }
        self.steps -= 1;
        Ok(())
    }
}
