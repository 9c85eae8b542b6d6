//! The test whether a program is accepted. Each function notes what its part of the text breaks, and keeps the breach
//! that comes first.
#![tactic(auto)]

ghost use Rattle.std.specs.Prelude.{◌≡◌, ◌↔◌, IsOk, IfErr, Some};
ghost use Rattle.kt_prog.specs.Accepted.{IsAccepted, mains_rules, task_rules};
ghost use Rattle.kt_check.specs.CheckRefusals.{IsCheckRefusal};
ghost use Rattle.kt_check.specs.Late.{place_or, too_many_of};
ghost use Rattle.kt_prog.specs.Refusals.{noted, refusal_of};

mod arguments;
mod beyond;
mod chains;
mod declarations;
mod directories;
mod exprs;
mod forks;
mod late;
mod least;
mod lets;
mod lookups;
mod names;
mod params;
mod statements;
#[cfg(test)]
mod tests;

use declarations::{check_counts, check_families, check_mains, check_names_twice};
use directories::Directory;
use kt_law::{Place, Refusal};
use kt_prog::{Main, Program, Task};
use names::{Names, Sight};
use params::check_params;
use statements::check_block;
use std::alloc::Global;

fn check_tasks(program: &Directory, tasks: &[Task], found: &mut Option<Refusal>)
    ensures { found.new ≡ noted found.old (task_rules program.now tasks.now) }
{
    for task in tasks {
        check_params(&task.index, task.params.as_slice(), found);
        let sight = Sight {
            program,
            in_main: false,
            in_loop: task.index.is_some(),
            names: &Names::Head(task),
        };
        check_block(&sight, task.body.as_slice(), found);
    }
}

fn check_bodies(program: &Directory, mains: &[Main], found: &mut Option<Refusal>)
    ensures { found.new ≡ noted found.old (mains_rules program.now mains.now) }
{
    let sight = Sight {
        program,
        in_main: true,
        in_loop: false,
        names: &Names::Nothing,
    };
    for main in mains {
        check_block(&sight, main.body.as_slice(), found);
    }
}

// Where the breach stands that was found, or else this place.
fn place_of(found: &Option<Refusal>, end: Place) -> Place
    ensures { result ≡ place_or found.now end }
{
    match found {
        None => end,
        Some(least) => least.place,
    }
}

// What is too many comes first: then all that stands behind it is passed over, however much it is.
fn first_too_many(program: &Program) -> Option<Refusal>
    ensures { result ≡ too_many_of program.now }
{
    let mut found = None;
    check_mains(program.end, program.mains.as_slice(), &mut found);
    check_families(program.families.as_slice(), &mut found);
    check_counts(program.tasks.as_slice(), &mut found);
    found
}

// The first breach of all, where this is the first of what is too many.
fn first_breach(program: &Directory, too_many: Option<Refusal>) -> Option<Refusal>
    requires { too_many ≡ too_many_of program.now }
    ensures { result ≡ refusal_of program.now }
{
    let mut found = too_many;
    check_names_twice(program, &mut found);
    check_tasks(program, program.tasks(), &mut found);
    check_bodies(program, program.mains(), &mut found);
    found
}

/// Tests a whole program. The error is the breach with the first place, and of those at one place the one of the
/// smallest number. It takes no memory.
pub fn check(program: &Program) -> Result<(), Refusal>
    ensures ok { IsOk result ↔ IsAccepted program.now }
    ensures refused { IfErr result (λ r. refusal_of program.now ≡ Some r) }
{
    let too_many = first_too_many(program);
    let directory = Directory::of(program, place_of(&too_many, program.end));
    match first_breach(&directory, too_many) {
        None => Ok(()),
        Some(refusal) => Err(refusal),
    }
}

/// Why a program is not accepted, or was not tested.
#[derive(Clone, Copy, Debug, PartialEq, Eq)]
pub enum CheckRefusal {
    Refused(Refusal),
    NoMemory,
}

/// Tests a whole program as [`check`] does, but not in the square of its names, however many there are: what lies out of
/// reach is found through ordered maps, which are made once and take memory in proportion to the declarations out of
/// reach. An accepted program has none of those, so memory is wanting only where a program is refused.
pub fn check_indexed(alloc: Global, program: &Program) -> Result<(), CheckRefusal>
    ensures ok { IsOk result ↔ IsAccepted program.now }
    ensures refused { IfErr result (IsCheckRefusal program.now) }
{
    let too_many = first_too_many(program);
    let from = place_of(&too_many, program.end);
    let directory = match Directory::with_maps(alloc, program, from) {
        Ok(directory) => directory,
        Err(_) => return Err(CheckRefusal::NoMemory),
    };
    match first_breach(&directory, too_many) {
        None => Ok(()),
        Some(refusal) => Err(CheckRefusal::Refused(refusal)),
    }
}
