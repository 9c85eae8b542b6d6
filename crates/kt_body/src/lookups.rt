// What names stand for.
ghost use Rattle.std.specs.Prelude.{◌≡◌, ◌≤◌, ◌+◌, ◌<◌, ◌^◌};
ghost use Rattle.kt_law.specs.declared.limits.TheConstants.{OBJECTS};
ghost use Rattle.kt_prog.specs.Locals.{bound_family, bound_of, family_of};
ghost use Rattle.kt_prog.specs.Lookups.{nowhere, number_in, object_in, range_in};
ghost use Rattle.kt_prog.specs.Objects.{objects_of};
ghost use Rattle.kt_prog.specs.Script.{give};
ghost use Rattle.kt_body.specs.Scenes.{IsSmallIn, site_in};

use crate::scene::Scene;
use crate::walk::Walk;
use kt_prog::{Bound, Family, Name};
use std::marker::Model;

/// The objects from `lo` up to `hi`, `hi` not included.
#[derive(Drop)]
pub struct Members {
    pub lo: u32,
    pub hi: u32,
}

impl Model for Members {
    ghost use Rattle.kt_prog.specs.Lookups.{Range};

    ghost Value = { Range };

    ghost view = { λ m. record { lo = m.lo; hi = m.hi } };
}

/// No objects.
pub fn nowhere() -> Members
    ensures { result ≡ nowhere }
{
    Members { lo: 0, hi: 0 }
}

fn bound(family: &Family, first: u32) -> Bound
    requires { first + family.now.members < 2 ^ 32 }
    ensures { result ≡ bound_family family.now.many first family.now.members }
{
    if family.many {
        Bound::Many(first, first + family.members as u32)
    } else {
        Bound::One(first)
    }
}

fn family_bound(families: &[Family], name: &Name) -> Option<Bound>
    requires { objects_of families.now ≤ OBJECTS }
    ensures value { result ≡ family_of 0 families.now name.now }
    ensures small { IsSmallIn result }
{
    let mut first = 0;
    for family in families {
        if family.name.is(name) {
            return Some(bound(family, first));
        }
        first += family.members as u32;
    }
    None
}

fn bound_at(scene: &Scene, walk: &Walk, name: &Name) -> Option<Bound>
    requires { objects_of scene.now.program.now.families ≤ OBJECTS }
    ensures value { result ≡ bound_of (site_in scene.now) walk.now.locals name.now }
    ensures small { IsSmallIn result }
{
    match walk.find(name) {
        Some(bound) => Some(bound),
        None => {
            if scene.in_main {
                family_bound(scene.program.program().families.as_slice(), name)
            } else {
                None
            }
        }
    }
}

#[tactic(auto, using(crate::proofs::Astray::astray_is))]
fn number_of(bound: Option<Bound>) -> u64
    ensures { number_in (λ w. w) bound ≡ give result }
{
    match bound {
        None => 0,
        Some(Bound::Number(n)) => n,
        Some(Bound::One(_)) => 0,
        Some(Bound::Many(_, _)) => 0,
    }
}

#[tactic(auto, using(crate::proofs::Astray::astray_is))]
fn object_of(bound: Option<Bound>) -> u32
    ensures value { object_in (λ w. w) bound ≡ give result }
    ensures small { IsSmallIn bound → result ≤ OBJECTS }
{
    match bound {
        None => 0,
        Some(Bound::Number(_)) => 0,
        Some(Bound::One(object)) => object,
        Some(Bound::Many(_, _)) => 0,
    }
}

#[tactic(auto, using(crate::proofs::Astray::astray_is))]
fn range_of(bound: Option<Bound>) -> Members
    ensures { range_in (λ w. w) bound ≡ give result }
{
    match bound {
        None => nowhere(),
        Some(Bound::Number(_)) => nowhere(),
        Some(Bound::One(_)) => nowhere(),
        Some(Bound::Many(lo, hi)) => Members { lo, hi },
    }
}

/// The number that a name stands for.
pub fn number_at(scene: &Scene, walk: &Walk, name: &Name) -> u64
    requires { objects_of scene.now.program.now.families ≤ OBJECTS }
    ensures { number_in (λ w. w) (bound_of (site_in scene.now) walk.now.locals name.now)
        ≡ give result }
{
    number_of(bound_at(scene, walk, name))
}

/// The object that a name stands for.
pub fn object_at(scene: &Scene, walk: &Walk, name: &Name) -> u32
    requires { objects_of scene.now.program.now.families ≤ OBJECTS }
    ensures object { object_in (λ w. w) (bound_of (site_in scene.now) walk.now.locals name.now)
        ≡ give result }
    ensures small { result ≤ OBJECTS }
{
    object_of(bound_at(scene, walk, name))
}

/// The objects of the range that a name stands for.
pub fn range_at(scene: &Scene, walk: &Walk, name: &Name) -> Members
    requires { objects_of scene.now.program.now.families ≤ OBJECTS }
    ensures { range_in (λ w. w) (bound_of (site_in scene.now) walk.now.locals name.now)
        ≡ give result }
{
    range_of(bound_at(scene, walk, name))
}
