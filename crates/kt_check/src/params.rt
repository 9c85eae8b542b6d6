// The rules of parameters.
ghost use Rattle.std.specs.Prelude.{◌≡◌, ◌+◌, ◌<◌, ◌≤◌, ◌^◌, ◌||◌, is_some, map};
ghost use Rattle.kt_law.specs.Modes.{is_postponed};
ghost use Rattle.kt_prog.specs.Declarations.{Counts, counted, no_params, param_rules, sort_rule};
ghost use Rattle.kt_prog.specs.Scope.{known_index, known_of, known_param};
ghost use Rattle.kt_prog.specs.Targets.{is_loop_of};
ghost use Rattle.kt_law.specs.declared.places.P.TheVariants.{P5};
ghost use Rattle.kt_prog.specs.Rules.{denied};
ghost use Rattle.kt_prog.specs.Refusals.{noted};
ghost use Rattle.kt_check.specs.Sights.{kind_index};

use crate::late::is_late;
use crate::least::note_if;
use crate::names::{index_kind, param_kind};
use kt_law::{ACCESSES, INTS, Mode, P, Refusal};
use kt_prog::{Index, Name, Param, Sort};

fn is_handed_on(mode: Mode) -> bool
    ensures { result ≡ is_postponed mode }
{
    matches!(mode, Mode::Rp | Mode::Wp | Mode::Xp | Mode::Cwp(_))
}

/// Notes what a parameter behind so many ints and objects breaks, but for its name.
fn check_sort(
    in_loop: bool,
    ints: usize,
    objects: usize,
    param: &Param,
    found: &mut Option<Refusal>,
)
    ensures { found.new ≡ noted found.old
        (sort_rule in_loop (record { ints = ints; objects = objects }) param.now param.now.sort) }
{
    match param.sort {
        Sort::Int => note_if(found, param.name_place, P::P12, ints == INTS),
        Sort::One(mode) => {
            note_if(found, param.place, P::P11, in_loop && is_handed_on(mode));
            note_if(found, param.name_place, P::P12, objects == ACCESSES);
        }
        Sort::Many(mode) => {
            note_if(found, param.place, P::P11, in_loop && is_handed_on(mode));
            note_if(found, param.name_place, P::P12, objects == ACCESSES);
        }
    }
}

fn is_loop(index: &Option<Index>) -> bool
    ensures { result ≡ is_loop_of index.now }
{
    index.is_some()
}

fn with_int(ints: usize, sort: Sort) -> usize
    requires { ints + 1 < 2 ^ 64 }
    ensures exact { result ≡ (counted (record { ints = ints; objects = 0 }) sort).ints }
    ensures one { result ≤ ints + 1 }
{
    match sort {
        Sort::Int => ints + 1,
        _ => ints,
    }
}

fn with_object(objects: usize, sort: Sort) -> usize
    requires { objects + 1 < 2 ^ 64 }
    ensures exact { result ≡ (counted (record { ints = 0; objects = objects }) sort).objects }
    ensures one { result ≤ objects + 1 }
{
    match sort {
        Sort::Int => objects,
        _ => objects + 1,
    }
}

fn is_taken(index: &Option<Index>, before: &[Param], name: &Name) -> bool
    ensures { result ≡ (is_some (kind_index index.now name.now)
        || is_some (known_of (map known_param before.now) name.now)) }
{
    index_kind(index, name).is_some() || param_kind(before, name).is_some()
}

/// Notes a parameter that has the name of one before it or of the index.
#[tactic(auto, using(crate::proofs::Passing::denied_late))]
fn check_name(index: &Option<Index>, before: &[Param], param: &Param, found: &mut Option<Refusal>)
    ensures { found.new ≡ noted found.old
        (denied param.now.name_place P5 (is_some (kind_index index.now param.now.name)
        || is_some (known_of (map known_param before.now) param.now.name))) }
{
    if is_late(found, param.name_place) {
        return;
    }
    let taken = is_taken(index, before, &param.name);
    note_if(found, param.name_place, P::P5, taken);
}

/// Notes what the parameters of a task or loop break.
pub fn check_params(index: &Option<Index>, params: &[Param], found: &mut Option<Refusal>)
    ensures { found.new ≡ noted found.old
        (param_rules (is_loop_of index.now) (known_index index.now) no_params params.now) }
{
    let in_loop = is_loop(index);
    let mut ints = 0;
    let mut objects = 0;
    for (i, param) in params.iter().enumerate() {
        check_sort(in_loop, ints, objects, param, found);
        check_name(index, &params[..i], param, found);
        ints = with_int(ints, param.sort);
        objects = with_object(objects, param.sort);
    }
}
