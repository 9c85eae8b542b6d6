// A program where a body finds the widths of its own objects at once.
ghost use Rattle.std.specs.Prelude.{◌≡◌, ◌<◌, ◌^◌};
ghost use Rattle.kt_body.specs.Widths.{width_among};
ghost use Rattle.kt_law.specs.Modes.{is_postponed};
ghost use Rattle.kt_prog.specs.Objects.{elements_of, width_of};

use crate::zero::width_at;
use arrayvec::ArrayVec;
use kt_law::{ACCESSES, Access, Mode};
use kt_prog::Program;
use std::marker::Model;

/// An object and how many elements it has.
#[derive(Clone, Copy)]
pub struct Width {
    object: u32,
    elements: u32,
}

// An array of widths is filled with this one where it has none yet.
impl Default for Width {
    fn default() -> Width {
        Width {
            object: 0,
            elements: 0,
        }
    }
}

/// A program with the widths of some of its objects. Contracts see the program.
#[derive(Drop)]
pub struct Measured<'a> {
    program: &'a Program,
    widths: ArrayVec<Width, ACCESSES>,
}

impl<'a> Model for Measured<'a> {
    ghost use Rattle.kt_body.specs.Widths.{AreWidths};
    ghost use Rattle.kt_prog.specs.declared.programs.Program.{Program};
    ghost use Rattle.std.specs.Coded.{codes};
    ghost use Rattle.kt_prog.specs.contracts.programs.What as what;
    ghost use Rattle.kt_prog.specs.contracts.programs.Stmt as stmt;
    ghost use Rattle.kt_prog.specs.contracts.programs.Expr as expr;

    ghost Value = { Program };

    ghost coded = { Prim.hlevel (codes, what.the_row.coded, stmt.the_row.coded, expr.the_row.coded) };

    ghost view = { λ m. m.program.now };

    ghost invariant = { λ m. AreWidths m.program.now.families m.widths.items };
}

fn postponed(mode: Mode) -> bool
    ensures { result ≡ is_postponed mode }
{
    match mode {
        Mode::Rp => true,
        Mode::Wp => true,
        Mode::Xp => true,
        Mode::Cwp(_) => true,
        _ => false,
    }
}

fn found(widths: &[Width], object: u32) -> Option<u32>
    ensures { result ≡ width_among widths.now object }
{
    for width in widths {
        if width.object == object {
            return Some(width.elements);
        }
    }
    None
}

impl<'a> Measured<'a> {
    /// With no widths yet.
    pub fn new(program: &'a Program) -> Measured<'a>
        ensures { result ≡ program.now }
    {
        Measured {
            program,
            widths: ArrayVec::new(),
        }
    }

    /// With the width of each access that is one object whose elements a body may touch.
    pub fn of(program: &'a Program, accesses: &[Access]) -> Measured<'a>
        requires { elements_of program.now.families < 2 ^ 32 }
        ensures { result ≡ program.now }
    {
        let mut measured = Measured::new(program);
        for access in accesses {
            measured.add(access);
        }
        measured
    }

    fn add(&mut self, access: &Access)
        requires { elements_of self.old.families < 2 ^ 32 }
        ensures { self.new ≡ self.old }
    {
        if access.hi.saturating_sub(access.lo) == 1 && !postponed(access.mode) {
            self.note(access.lo);
        }
    }

    fn note(&mut self, object: u32)
        requires { elements_of self.old.families < 2 ^ 32 }
        ensures { self.new ≡ self.old }
    {
        if self.widths.len() < ACCESSES {
            let elements = width_at(self.program, object);
            self.widths.push(Width { object, elements });
        }
    }

    /// How many elements the object has, 0 where there is no such object.
    pub fn width(&self, object: u32) -> u32
        requires { elements_of self.now.families < 2 ^ 32 }
        ensures { result ≡ width_of self.now.families object }
    {
        match found(self.widths.as_slice(), object) {
            Some(elements) => elements,
            None => width_at(self.program, object),
        }
    }

    pub fn program(&self) -> &'a Program
        ensures { result.now ≡ self.now }
    {
        self.program
    }
}
