// The rules of declarations.
ghost use Rattle.std.specs.Prelude.{◌≡◌, ◌+◌, ◌*◌, ◌≤◌, [], ◌∷◌, false, is_some, map};
ghost use Rattle.kt_law.specs.declared.limits.TheConstants.{ELEMENTS, OBJECTS};
ghost use Rattle.kt_prog.specs.Declarations.{count_rules, declared_in, family_rules, main_rules, names_twice, other_mains, too_large};
ghost use Rattle.kt_prog.specs.Targets.{kernel_named};
ghost use Rattle.kt_prog.specs.Refusals.{noted};
ghost use Rattle.kt_check.specs.Sights.{declared_family, declared_task};

use crate::directories::Directory;
use crate::late::is_late;
use crate::least::{note, note_if};
use kt_law::{DEFINITIONS, ELEMENTS, OBJECTS, P, Place, Refusal, WIDTH};
use kt_prog::{Family, Kernel, Main, Name, Task};

fn is_kernel(name: &Name) -> bool
    ensures { result ≡ is_some (kernel_named name.now) }
{
    match Kernel::named(name) {
        Some(_) => true,
        None => false,
    }
}

#[tactic(auto, using(crate::proofs::Passing::name_late))]
fn check_name(program: &Directory, name: &Name, place: Place, found: &mut Option<Refusal>)
    ensures { found.new ≡ noted found.old
        (names_twice (declared_in program.now) (record { name = name.now; place = place } ∷ [])) }
{
    if is_late(found, place) {
        return;
    }
    let taken = is_kernel(name) || program.is_declared_before(name, place);
    note_if(found, place, P::P5, taken);
}

fn check_family_names(program: &Directory, families: &[Family], found: &mut Option<Refusal>)
    ensures { found.new ≡ noted found.old
        (names_twice (declared_in program.now) (map declared_family families.now)) }
{
    for family in families {
        check_name(program, &family.name, family.place, found);
    }
}

fn check_task_names(program: &Directory, tasks: &[Task], found: &mut Option<Refusal>)
    ensures { found.new ≡ noted found.old
        (names_twice (declared_in program.now) (map declared_task tasks.now)) }
{
    for task in tasks {
        check_name(program, &task.name, task.place, found);
    }
}

/// Notes the declarations that have the name of an earlier one or of a kernel.
pub fn check_names_twice(program: &Directory, found: &mut Option<Refusal>)
    ensures { found.new ≡ noted found.old
        (names_twice (declared_in program.now) (declared_in program.now)) }
{
    check_family_names(program, program.families(), found);
    check_task_names(program, program.tasks(), found);
}

fn note_mains(mains: &[Main], found: &mut Option<Refusal>)
    ensures { found.new ≡ noted found.old (other_mains mains.now) }
{
    for main in mains {
        note(found, main.place, P::P5);
    }
}

/// Notes that `main` is missing, or each `main` behind the first.
pub fn check_mains(end: Place, mains: &[Main], found: &mut Option<Refusal>)
    ensures { found.new ≡ noted found.old (main_rules end mains.now) }
{
    if mains.is_empty() {
        note(found, end, P::P13);
    } else {
        note_mains(&mains[1..], found);
    }
}

/// No sum or product is taken before what stands before it has bounded it.
fn is_too_large(objects: u64, elements: u64, family: &Family) -> bool
    requires objects { objects ≤ OBJECTS }
    requires elements { elements ≤ ELEMENTS }
    ensures exact { result ≡ too_large objects elements family.now }
    ensures few { result ≡ false → objects + family.now.members ≤ OBJECTS }
    ensures small { result ≡ false
        → elements + family.now.members * family.now.elements ≤ ELEMENTS }
{
    family.members == 0
        || family.elements == 0
        || family.elements > u64::from(WIDTH)
        || family.members > u64::from(OBJECTS) - objects
        || family.members * family.elements > u64::from(ELEMENTS) - elements
}

/// Notes the families that are too large.
pub fn check_families(families: &[Family], found: &mut Option<Refusal>)
    ensures { found.new ≡ noted found.old (family_rules 0 0 families.now) }
{
    let mut objects = 0;
    let mut elements = 0;
    for family in families {
        if is_too_large(objects, elements, family) {
            note(found, family.place, P::P12);
        } else {
            objects += family.members;
            elements += family.members * family.elements;
        }
    }
}

/// Notes a task or loop too many.
pub fn check_counts(tasks: &[Task], found: &mut Option<Refusal>)
    ensures { found.new ≡ noted found.old (count_rules 0 tasks.now) }
{
    for (i, task) in tasks.iter().enumerate() {
        note_if(found, task.place, P::P12, i == DEFINITIONS as usize);
    }
}
