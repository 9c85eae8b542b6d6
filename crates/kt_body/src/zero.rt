// The zeroing before a body.
ghost use Rattle.std.specs.Prelude.{◌≡◌, ◌-◌, ◌<◌, ◌^◌};
ghost use Rattle.kt_prog.specs.Calls.{Whole};
ghost use Rattle.kt_prog.specs.Objects.{elements_of, width_of};
ghost use Rattle.kt_prog.specs.Zeroing.{zero_access, zero_all, zero_elements, zero_objects};
ghost use Rattle.kt_body.specs.Endings.{Begins, ZeroesSo};
ghost use Rattle.kt_body.specs.Moves.{Can, RanWent};

use crate::ops::{Ended, Ops, Went};
use kt_law::{Access, Mode};
use kt_prog::{Call, Program};

/// How many elements the object has, 0 where there is no such object.
pub fn width_at(program: &Program, object: u32) -> u32
    requires { elements_of program.now.families < 2 ^ 32 }
    ensures { result ≡ width_of program.now.families object }
{
    let mut rest = u64::from(object);
    for family in program.families.as_slice() {
        if rest < family.members {
            return family.elements as u32;
        }
        rest -= family.members;
    }
    0
}

fn zero_object<O: Ops>(program: &Program, object: u32, ops: &mut O) -> Went
    requires { Can O.at O.goes O.halted program.now ops.old
        (zero_elements object 0 (width_of program.now.families object)) }
    ensures { RanWent O.at O.goes O.halted ops.old
        (zero_elements object 0 (width_of program.now.families object)) ops.new result }
{
    let width = width_at(program, object);
    for element in 0..width {
        match ops.store(object, element, 0) {
            Went::Went => {}
            Went::Halt => return Went::Halt,
        }
    }
    Went::Went
}

fn zero_range<O: Ops>(program: &Program, lo: u32, hi: u32, ops: &mut O) -> Went
    requires { Can O.at O.goes O.halted program.now ops.old
        (zero_objects (width_of program.now.families) lo (hi - lo)) }
    ensures { RanWent O.at O.goes O.halted ops.old
        (zero_objects (width_of program.now.families) lo (hi - lo)) ops.new result }
{
    for object in lo..hi {
        match zero_object(program, object, ops) {
            Went::Went => {}
            Went::Halt => return Went::Halt,
        }
    }
    Went::Went
}

fn zero_one<O: Ops>(program: &Program, access: &Access, ops: &mut O) -> Went
    requires { Can O.at O.goes O.halted program.now ops.old
        (zero_access (width_of program.now.families) access.now access.now.mode) }
    ensures { RanWent O.at O.goes O.halted ops.old
        (zero_access (width_of program.now.families) access.now access.now.mode) ops.new result }
{
    match access.mode {
        Mode::W => zero_range(program, access.lo, access.hi, ops),
        _ => Went::Went,
    }
}

/// Stores 0 to each element of each `w` object.
pub fn zero_each<O: Ops>(program: &Program, accesses: &[Access], ops: &mut O) -> Went
    requires { Can O.at O.goes O.halted program.now ops.old
        (zero_all (width_of program.now.families) accesses.now) }
    ensures { RanWent O.at O.goes O.halted ops.old
        (zero_all (width_of program.now.families) accesses.now) ops.new result }
{
    for access in accesses {
        match zero_one(program, access, ops) {
            Went::Went => {}
            Went::Halt => return Went::Halt,
        }
    }
    Went::Went
}

/// Stores 0 to every element of each `w` object of the call, in the order of accesses and elements.
pub fn run_zero<O: Ops>(program: &Program, call: &Call, ops: &mut O) -> Ended
    requires { Begins O.at O.goes O.halted program.now (Whole call.now) ops.old }
    ensures { ZeroesSo O.at O.goes O.halted program.now call.now ops.old ops.new result }
{
    match zero_each(program, call.accesses.as_slice(), ops) {
        Went::Went => Ended::Done,
        Went::Halt => Ended::Halted,
    }
}
