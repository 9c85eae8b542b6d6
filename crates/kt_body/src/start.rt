// What the names of a task stand for where its body starts.
ghost use Rattle.std.specs.Prelude.{◌≡◌, ◌≤◌, List, [], ◌∷◌, ◌++◌, length};
ghost use Rattle.kt_law.specs.declared.limits.TheConstants.{ACCESSES, INTS};
ghost use Rattle.kt_rights.specs.Rights.{EachOf};
ghost use Rattle.kt_prog.specs.Bodies.{with_index};
ghost use Rattle.kt_prog.specs.Locals.{given};
ghost use Rattle.kt_prog.specs.Statements.{at_locals};
ghost use Rattle.kt_prog.specs.declared.programs.Param.{Param};
ghost use Rattle.kt_body.specs.Starts.{IsPart, StartsLow, whole_start};

use crate::walk::Walk;
use kt_law::Access;
use kt_prog::{Bound, Index, Param, Sort};

/// How many ints and accesses of a call have names already.
#[derive(Clone, Copy)]
pub struct Used {
    pub ints: usize,
    pub accesses: usize,
}

fn give<'a>(
    walk: &mut Walk<'a>,
    used: &mut Used,
    param: &'a Param,
    ints: &[u64],
    accesses: &[Access],
)
    requires part { IsPart walk.old.locals used.old ints.now accesses.now }
    requires low { EachOf StartsLow accesses.now }
    requires few_ints { length ints.now ≤ INTS }
    requires few_accesses { length accesses.now ≤ ACCESSES }
    ensures part { IsPart walk.new.locals used.new ints.now accesses.now }
    ensures steps { walk.new.steps ≡ walk.old.steps }
    ensures rest { (params : List Param)
        → whole_start walk.old.locals used.old (param.now ∷ params) ints.now accesses.now
        ≡ whole_start walk.new.locals used.new params ints.now accesses.now }
{
    match param.sort {
        Sort::Int => {
            if used.ints < ints.len() {
                walk.give(&param.name, Bound::Number(ints[used.ints]));
                used.ints += 1;
            }
        }
        Sort::One(_) => {
            if used.accesses < accesses.len() {
                walk.give(&param.name, Bound::One(accesses[used.accesses].lo));
                used.accesses += 1;
            }
        }
        Sort::Many(_) => {
            if used.accesses < accesses.len() {
                let access = &accesses[used.accesses];
                walk.give(&param.name, Bound::Many(access.lo, access.hi));
                used.accesses += 1;
            }
        }
    }
}

/// The name of an index, where there is one.
pub fn name_index<'a>(walk: &mut Walk<'a>, index: &'a Option<Index>, number: u32)
    requires { walk.old.locals ≡ [] }
    ensures named { walk.new ≡ at_locals walk.old (with_index index.now number []) }
    ensures few { length walk.new.locals ≤ 1 }
{
    match index {
        None => {}
        Some(index) => walk.give(&index.name, Bound::Number(u64::from(number))),
    }
}

/// The names of the parameters, with the ints and the accesses of a call in order, behind the name of an index.
pub fn name_params<'a>(walk: &mut Walk<'a>, params: &'a [Param], ints: &[u64], accesses: &[Access])
    requires few { length walk.old.locals ≤ 1 }
    requires low { EachOf StartsLow accesses.now }
    requires few_ints { length ints.now ≤ INTS }
    requires few_accesses { length accesses.now ≤ ACCESSES }
    ensures { walk.new
        ≡ at_locals walk.old (walk.old.locals ++ given params.now ints.now accesses.now) }
{
    let mut used = Used {
        ints: 0,
        accesses: 0,
    };
    for param in params {
        give(walk, &mut used, param, ints, accesses);
    }
}
