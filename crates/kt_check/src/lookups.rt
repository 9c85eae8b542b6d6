// Lookups of declarations by their names, where the first of them are in reach.
ghost use Rattle.std.specs.Prelude.{◌≡◌, ◌&&◌, ◌+◌, ◌<◌, ◌≤◌, drop, get_or, length, map, suc, take, true, false};
ghost use Rattle.std.specs.Str.{bytes_eq};
ghost use Rattle.kt_check.specs.Beyond.{Tells, name_of_family, name_of_task};
ghost use Rattle.kt_check.specs.Chains.{hash_family, hash_task};
ghost use Rattle.kt_prog.specs.Declarations.{is_earlier, place_before};
ghost use Rattle.kt_prog.specs.Scope.{family_known, kind_family};
ghost use Rattle.kt_check.specs.Sights.{declared_family, declared_task};
ghost use Rattle.kt_prog.specs.Targets.{task_named};
ghost use Rattle.kt_prog.specs.declared.programs.Task.{Task};
ghost use Rattle.kt_check.specs.declared.chains.TheConstants.{COVERED};

use crate::beyond::Beyond;
use crate::chains::{Chains, hash};
use crate::least::is_before;
use kt_law::{Mode, Place};
use kt_prog::{Family, Kind, Name, Task};

fn kind_of_family(family: &Family) -> Kind
    ensures { result ≡ kind_family family.now.many }
{
    if family.many {
        Kind::Many(Mode::Xp)
    } else {
        Kind::One(Mode::Xp)
    }
}

fn family_kind_listed(families: &[Family], name: &Name) -> Option<Kind>
    ensures { result ≡ family_known families.now name.now }
{
    for family in families {
        if family.name.is(name) {
            return Some(kind_of_family(family));
        }
    }
    None
}

fn family_kind_beyond(families: &[Family], beyond: &Beyond, name: &Name) -> Option<Kind>
    requires { Tells beyond.now (map name_of_family families.now) }
    ensures { result ≡ family_known families.now name.now }
{
    match beyond {
        Beyond::Listed => family_kind_listed(families, name),
        Beyond::Mapped(places) => match places.get(name.as_bytes()) {
            None => None,
            Some(at) => Some(kind_of_family(&families[*at])),
        },
    }
}

/// What the name is, if it is a family's.
pub fn family_kind(
    families: &[Family],
    chains: &Chains,
    beyond: &Beyond,
    name: &Name,
) -> Option<Kind>
    requires exact { chains.now ≡ take COVERED (map hash_family families.now) }
    requires few { length chains.now ≤ length families.now }
    requires told { Tells beyond.now (map name_of_family (drop (length chains.now) families.now)) }
    ensures { result ≡ family_known families.now name.now }
{
    let covered = chains.len();
    let mut at = chains.first(hash(name));
    'chain: while at < covered {
        let family = &families[at];
        if family.name.is(name) {
            return Some(kind_of_family(family));
        }
        at = chains.after(at);
    }
    family_kind_beyond(&families[covered..], beyond, name)
}

// Whether a declaration of this name stands before the place.
fn is_such(declared: &Name, at: Place, name: &Name, place: Place) -> bool
    ensures { result ≡ (bytes_eq declared.now name.now && place_before at place) }
{
    declared.is(name) && is_before(at, place)
}

fn is_family_beyond(families: &[Family], reached: bool, name: &Name, place: Place) -> bool
    requires { reached ≡ true → is_earlier (map declared_family families.now)
        (record { name = name.now; place = place }) ≡ false }
    ensures { result ≡ is_earlier (map declared_family families.now)
        (record { name = name.now; place = place }) }
{
    if reached {
        return false;
    }
    for family in families {
        if is_such(&family.name, family.place, name, place) {
            return true;
        }
    }
    false
}

/// Whether a family of this name stands before the place.
///
/// `reached` says that it may only be one in reach.
pub fn is_family_before(
    families: &[Family],
    chains: &Chains,
    reached: bool,
    name: &Name,
    place: Place,
) -> bool
    requires exact { chains.now ≡ take COVERED (map hash_family families.now) }
    requires few { length chains.now ≤ length families.now }
    requires reached { reached ≡ true
        → is_earlier (map declared_family (drop (length chains.now) families.now))
        (record { name = name.now; place = place }) ≡ false }
    ensures { result ≡ is_earlier (map declared_family families.now)
        (record { name = name.now; place = place }) }
{
    let covered = chains.len();
    let mut at = chains.first(hash(name));
    'chain: while at < covered {
        let family = &families[at];
        if is_such(&family.name, family.place, name, place) {
            return true;
        }
        at = chains.after(at);
    }
    is_family_beyond(&families[covered..], reached, name, place)
}

fn is_task_beyond(tasks: &[Task], reached: bool, name: &Name, place: Place) -> bool
    requires { reached ≡ true → is_earlier (map declared_task tasks.now)
        (record { name = name.now; place = place }) ≡ false }
    ensures { result ≡ is_earlier (map declared_task tasks.now)
        (record { name = name.now; place = place }) }
{
    if reached {
        return false;
    }
    for task in tasks {
        if is_such(&task.name, task.place, name, place) {
            return true;
        }
    }
    false
}

/// Whether a task or loop of this name stands before the place.
///
/// `reached` says that it may only be one in reach.
pub fn is_task_before(
    tasks: &[Task],
    chains: &Chains,
    reached: bool,
    name: &Name,
    place: Place,
) -> bool
    requires exact { chains.now ≡ take COVERED (map hash_task tasks.now) }
    requires few { length chains.now ≤ length tasks.now }
    requires reached { reached ≡ true
        → is_earlier (map declared_task (drop (length chains.now) tasks.now))
        (record { name = name.now; place = place }) ≡ false }
    ensures { result ≡ is_earlier (map declared_task tasks.now)
        (record { name = name.now; place = place }) }
{
    let covered = chains.len();
    let mut at = chains.first(hash(name));
    'chain: while at < covered {
        let task = &tasks[at];
        if is_such(&task.name, task.place, name, place) {
            return true;
        }
        at = chains.after(at);
    }
    is_task_beyond(&tasks[covered..], reached, name, place)
}

fn task_listed(tasks: &[Task], from: usize, name: &Name) -> usize
    requires { from ≤ length tasks.now }
    ensures passed { task_named (suc from) (drop from tasks.now) name.now
        ≡ task_named (suc result) (drop result tasks.now) name.now }
    ensures here { result < length tasks.now → (t : Task) → t ≡ get_or tasks.now result t
        → bytes_eq t.name name.now ≡ true }
{
    for i in from..tasks.len() {
        let task = &tasks[i];
        if task.name.is(name) {
            return i;
        }
    }
    tasks.len()
}

fn task_beyond(tasks: &[Task], from: usize, beyond: &Beyond, name: &Name) -> usize
    requires from { from ≤ length tasks.now }
    requires told { Tells beyond.now (map name_of_task (drop from tasks.now)) }
    ensures passed { task_named (suc from) (drop from tasks.now) name.now
        ≡ task_named (suc result) (drop result tasks.now) name.now }
    ensures here { result < length tasks.now → (t : Task) → t ≡ get_or tasks.now result t
        → bytes_eq t.name name.now ≡ true }
{
    match beyond {
        Beyond::Listed => task_listed(tasks, from, name),
        Beyond::Mapped(places) => match places.get(name.as_bytes()) {
            None => tasks.len(),
            Some(at) => from + *at,
        },
    }
}

/// Where the first task or loop of this name stands, or else how many there are.
pub fn task_at(tasks: &[Task], chains: &Chains, beyond: &Beyond, name: &Name) -> usize
    requires exact { chains.now ≡ take COVERED (map hash_task tasks.now) }
    requires few { length chains.now ≤ length tasks.now }
    requires told { Tells beyond.now (map name_of_task (drop (length chains.now) tasks.now)) }
    ensures passed { task_named 1 tasks.now name.now
        ≡ task_named (suc result) (drop result tasks.now) name.now }
    ensures here { result < length tasks.now → (t : Task) → t ≡ get_or tasks.now result t
        → bytes_eq t.name name.now ≡ true }
{
    let covered = chains.len();
    let mut at = chains.first(hash(name));
    'chain: while at < covered {
        let task = &tasks[at];
        if task.name.is(name) {
            return at;
        }
        at = chains.after(at);
    }
    task_beyond(tasks, covered, beyond, name)
}
