// What a store begins with: where each object's elements begin, and the input.
ghost use Rattle.std.specs.Prelude.{◌≡◌, ◌<◌, ◌^◌, ◌++◌, IfOk, OnOk, length};
ghost use Rattle.kt_prog.specs.Objects.{elements_of, inputs_of, objects_of};
ghost use Rattle.kt_prog.specs.Reference.{opened_with};
ghost use Rattle.kt_store.specs.Whole.{HasFirsts};

use kt_law::NoMemory;
use kt_prog::{Family, Program, first_element, objects};
use std::alloc::Global;

/// The number of each object's element 0.
pub fn firsts_of(alloc: Global, program: &Program) -> Result<Vec<u32>, NoMemory>
    requires objects { objects_of program.now.families < 2 ^ 32 }
    requires elements { elements_of program.now.families < 2 ^ 32 }
    ensures { IfOk result (λ firsts. HasFirsts program.now.families firsts.items) }
{
    let count = objects(program);
    let mut firsts = Vec::with_capacity(alloc, count as usize)?;
    for object in 0..count {
        firsts.push_reserved(first_element(program, object));
    }
    Ok(firsts)
}

/// Puts the elements of these families behind the others: for an input family the next numbers, and else 0.
pub fn open_families(
    families: &[Family],
    input: &[u64],
    elements: &mut Vec<u64>,
) -> Result<(), NoMemory>
    requires inputs { length input.now ≡ inputs_of families.now }
    requires elements { elements_of families.now < 2 ^ 32 }
    ensures { OnOk result
        (elements.new.items ≡ elements.old.items ++ opened_with families.now input.now) }
{
    match families {
        [] => Ok(()),
        [family, families @ ..] => {
            let count = (family.members * family.elements) as usize;
            if family.input {
                elements.extend_from_slice(&input[..count])?;
                open_families(families, &input[count..], elements)
            } else {
                elements.resize(elements.len() + count, 0)?;
                open_families(families, input, elements)
            }
        }
    }
}
