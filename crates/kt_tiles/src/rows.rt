// The elements of an object one after another, from its first one on.
ghost use Rattle.std.specs.Prelude.{◌≡◌, ◌≤◌, length};
ghost use Rattle.kt_law.specs.declared.limits.TheConstants.{WIDTH};
ghost use Rattle.kt_prog.specs.Kernels.{load_all, perform_all};
ghost use Rattle.kt_body.specs.Moves.{Can, Ran, RanTo};
ghost use Rattle.kt_body.specs.Scenes.{deed_of};

use kt_body::{Early, Got, Ops, Went, Write, do_write};
use kt_prog::Program;

/// Loads as many elements as there is room for.
pub fn load_row<O: Ops>(
    program: &Program,
    object: u32,
    into: &mut [u64],
    ops: &mut O,
) -> Result<(), Early>
    requires can { Can O.at O.goes O.halted program.now ops.old
        (load_all object 0 (length into.old)) }
    requires few { length into.old ≤ WIDTH }
    ensures ran { RanTo O.at O.goes O.halted ops.old (load_all object 0 (length into.old))
        ops.new into.new result }
    ensures shape { length into.new ≡ length into.old }
{
    for i in 0..into.len() {
        match ops.load(object, i as u32) {
            Got::Value(v) => into[i] = v,
            Got::Halt => return Err(Early::Halted),
        }
    }
    Ok(())
}

/// Does this with each of the numbers, to one element after another.
pub fn write_row<O: Ops>(
    program: &Program,
    write: Write,
    object: u32,
    values: &[u64],
    ops: &mut O,
) -> Result<(), Early>
    requires can { Can O.at O.goes O.halted program.now ops.old
        (perform_all (deed_of write) object 0 values.now) }
    requires few { length values.now ≤ WIDTH }
    ensures { Ran O.at O.goes O.halted ops.old (perform_all (deed_of write) object 0 values.now)
        ops.new result }
{
    for i in 0..values.len() {
        let value = values[i];
        match do_write(write, object, i as u32, value, ops) {
            Went::Went => {}
            Went::Halt => return Err(Early::Halted),
        }
    }
    Ok(())
}
