// The text of rows.
ghost use Rattle.std.specs.Prelude.{◌≡◌, ◌<◌, ◌^◌, ◌*◌, ◌++◌, length, IfOk, OnOk, string_bytes};
ghost use Rattle.kt_prog.specs.Objects.{elements_of};
ghost use Rattle.kt_print.specs.Rows.{family_text, line_text, rows_text};

use kt_law::NoMemory;
use kt_prog::{Family, Name, Program};
use std::alloc::{AllocError, Global};

/// The lines `NAME[k] v v v` of the output families. The rows are the elements of all objects in order.
pub fn rows_bytes(alloc: Global, program: &Program, rows: &[u64]) -> Result<Vec<u8>, NoMemory>
    requires all { length rows.now ≡ elements_of program.now.families }
    requires few { elements_of program.now.families < 2 ^ 32 }
    ensures { IfOk result (λ text. text.items ≡ rows_text program.now.families rows.now) }
{
    let mut text = String::new(alloc);
    let mut rest = rows;
    for family in program.families.as_slice() {
        let (own, behind) = rest.split_at((family.members * family.elements) as usize);
        if family.output {
            push_family(&mut text, family, own)?;
        }
        rest = behind;
    }
    Ok(text.into_bytes())
}

/// Adds a line for each member of a family, whose elements are `rows`.
fn push_family(text: &mut String, family: &Family, rows: &[u64]) -> Result<(), AllocError>
    requires { length rows.now ≡ family.now.members * family.now.elements }
    ensures { OnOk result (string_bytes text.new
        ≡ string_bytes text.old ++ family_text family.now rows.now) }
{
    let mut rest = rows;
    for member in 0..family.members {
        let (row, behind) = rest.split_at(family.elements as usize);
        push_line(text, &family.name, member, row)?;
        rest = behind;
    }
    Ok(())
}

/// Adds the line of one member.
fn push_line(text: &mut String, name: &Name, member: u64, row: &[u64]) -> Result<(), AllocError>
    ensures { OnOk result (string_bytes text.new
        ≡ string_bytes text.old ++ line_text name.now member row.now) }
{
    let name = name.as_str();
    write!(text, "{name}[{member}]")?;
    for value in row {
        write!(text, " {value}")?;
    }
    text.push('\n')
}
