// Loads and writes of elements.
ghost use Rattle.kt_body.specs.Doing.{CanDo, Followed};
ghost use Rattle.kt_body.specs.Moves.{Can, Ran};
ghost use Rattle.kt_body.specs.Scenes.{fetch, operation_of, put};
ghost use Rattle.kt_prog.specs.Objects.{width_of};

use crate::measured::Measured;
use crate::ops::{Early, Got, Ops, Went};
use kt_law::{F, Op};

/// What a statement does to an element.
#[derive(Clone, Copy)]
pub enum Write {
    Store,
    Fold(Op),
}

/// Loads an element that is tested to be there.
pub fn load_element<O: Ops>(
    program: &Measured,
    line: u32,
    object: u32,
    i: u64,
    ops: &mut O,
) -> Result<u64, Early>
    requires { Can O.at O.goes O.halted program.now ops.old
        (fetch (width_of program.now.families) line object i) }
    ensures { Ran O.at O.goes O.halted ops.old (fetch (width_of program.now.families) line object i)
        ops.new result }
{
    let width = program.width(object);
    if i >= u64::from(width) {
        return Err(Early::Fault(F::F2, line));
    }
    match ops.load(object, i as u32) {
        Got::Value(v) => Ok(v),
        Got::Halt => Err(Early::Halted),
    }
}

/// Stores or folds a value to an element that is there.
pub fn do_write<O: Ops>(write: Write, object: u32, element: u32, value: u64, ops: &mut O) -> Went
    requires { CanDo O.at O.halted ops.old (λ a. operation_of write object element value) }
    ensures { Followed O.at O.goes O.halted ops.old (operation_of write object element value)
        ops.new result }
{
    match write {
        Write::Store => ops.store(object, element, value),
        Write::Fold(op) => ops.fold(object, element, op, value),
    }
}

/// Writes a value to an element that is tested to be there.
pub fn write_element<O: Ops>(
    program: &Measured,
    line: u32,
    write: Write,
    object: u32,
    i: u64,
    value: u64,
    ops: &mut O,
) -> Result<(), Early>
    requires { Can O.at O.goes O.halted program.now ops.old
        (put (width_of program.now.families) line write object i value) }
    ensures { Ran O.at O.goes O.halted ops.old
        (put (width_of program.now.families) line write object i value) ops.new result }
{
    let width = program.width(object);
    if i >= u64::from(width) {
        return Err(Early::Fault(F::F2, line));
    }
    match do_write(write, object, i as u32, value, ops) {
        Went::Went => Ok(()),
        Went::Halt => Err(Early::Halted),
    }
}
