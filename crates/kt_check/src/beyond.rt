// Declarations out of reach.
ghost use Rattle.std.specs.Prelude.{◌<◌, IfOk, OnErr, length, map};
ghost use Rattle.kt_check.specs.Beyond.{Tells, name_of_family, name_of_task};

use kt_prog::{Family, Task};
use std::alloc::{AllocError, Global};
use std::collections::BTreeMap;

/// The declarations of a kind that are out of reach: as they stand, or by their names, of equal ones the first.
#[derive(Drop)]
pub enum Beyond<'a> {
    Listed,
    Mapped(BTreeMap<&'a [u8], usize>),
}

/// The families by their names.
pub fn map_families<'a>(alloc: Global, families: &'a [Family]) -> Result<Beyond<'a>, AllocError>
    ensures told { IfOk result (λ beyond. Tells beyond (map name_of_family families.now)) }
    ensures some { OnErr result (0 < length families.now) }
{
    let mut places = BTreeMap::new(alloc);
    let len = families.len();
    // From the last one on, so that of equal names the first stays.
    for done in 0..len {
        let at = len - 1 - done;
        let family = &families[at];
        places.insert(family.name.as_bytes(), at)?;
    }
    Ok(Beyond::Mapped(places))
}

/// The tasks and loops by their names.
pub fn map_tasks<'a>(alloc: Global, tasks: &'a [Task]) -> Result<Beyond<'a>, AllocError>
    ensures told { IfOk result (λ beyond. Tells beyond (map name_of_task tasks.now)) }
    ensures some { OnErr result (0 < length tasks.now) }
{
    let mut places = BTreeMap::new(alloc);
    let len = tasks.len();
    // From the last one on, so that of equal names the first stays.
    for done in 0..len {
        let at = len - 1 - done;
        let task = &tasks[at];
        places.insert(task.name.as_bytes(), at)?;
    }
    Ok(Beyond::Mapped(places))
}
