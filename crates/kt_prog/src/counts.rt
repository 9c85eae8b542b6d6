// How objects and elements are numbered: objects from 0 by family and member, elements from 0 by object and place.
ghost use Rattle.std.specs.Prelude.{◌≡◌, ◌<◌, ◌^◌};
ghost use Rattle.kt_prog.specs.Objects.{elements_of, first_element_of, inputs_of, objects_of, width_of};

use crate::programs::Program;

/// The number of objects.
pub fn objects(program: &Program) -> u32
    requires { objects_of program.now.families < 2 ^ 32 }
    ensures { result ≡ objects_of program.now.families }
{
    let mut count = 0;
    for family in program.families.as_slice() {
        count += family.members as u32;
    }
    count
}

/// The number of elements of all objects.
pub fn elements(program: &Program) -> u32
    requires { elements_of program.now.families < 2 ^ 32 }
    ensures { result ≡ elements_of program.now.families }
{
    let mut count = 0;
    for family in program.families.as_slice() {
        count += (family.members * family.elements) as u32;
    }
    count
}

/// The number of elements of the input families, which is how many numbers the data must have.
pub fn inputs(program: &Program) -> u32
    requires { elements_of program.now.families < 2 ^ 32 }
    ensures { result ≡ inputs_of program.now.families }
{
    let mut count = 0;
    for family in program.families.as_slice() {
        if family.input {
            count += (family.members * family.elements) as u32;
        }
    }
    count
}

/// The number of the object's element 0.
pub fn first_element(program: &Program, object: u32) -> u32
    requires there { object < objects_of program.now.families }
    requires fits { elements_of program.now.families < 2 ^ 32 }
    ensures { result ≡ first_element_of program.now.families object }
{
    let mut rest = u64::from(object);
    let mut first = 0;
    for family in program.families.as_slice() {
        if rest < family.members {
            return (first + rest * family.elements) as u32;
        }
        rest -= family.members;
        first += family.members * family.elements;
    }
    unreachable!()
}

/// The number of the object's elements.
pub fn width(program: &Program, object: u32) -> u32
    requires there { object < objects_of program.now.families }
    requires fits { elements_of program.now.families < 2 ^ 32 }
    ensures { result ≡ width_of program.now.families object }
{
    let mut rest = u64::from(object);
    for family in program.families.as_slice() {
        if rest < family.members {
            return family.elements as u32;
        }
        rest -= family.members;
    }
    unreachable!()
}
