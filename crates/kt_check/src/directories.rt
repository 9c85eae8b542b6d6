// Programs with their declarations in reach.
ghost use Rattle.std.specs.Prelude.{◌≡◌, ◌&&◌, ◌<◌, IfOk, OnErr, drop, get_or, length, map, not, suc, true};
ghost use Rattle.std.specs.Str.{bytes_eq};
ghost use Rattle.kt_check.specs.Beyond.{IsBeyond};
ghost use Rattle.kt_prog.specs.Declarations.{declared_in, is_earlier, place_before};
ghost use Rattle.kt_prog.specs.Scope.{family_known};
ghost use Rattle.kt_prog.specs.Targets.{task_named};
ghost use Rattle.kt_prog.specs.declared.programs.Task.{Task};

use crate::beyond::{Beyond, map_families, map_tasks};
use crate::chains::{Chains, family_chains, task_chains};
use crate::late::{are_families_from, are_tasks_from};
use crate::least::is_before;
use crate::lookups::{family_kind, is_family_before, is_task_before, task_at};
use kt_law::Place;
use kt_prog::{Family, Kind, Main, Name, Program, Task};
use std::alloc::{AllocError, Global};
use std::marker::Model;

/// A program with its declarations in reach by their names. Contracts see the program.
#[derive(Drop)]
pub struct Directory<'a> {
    program: &'a Program,
    families: Chains,
    tasks: Chains,
    families_beyond: Beyond<'a>,
    tasks_beyond: Beyond<'a>,
    from: Place,
    /// Whether no declaration out of reach stands before `from`.
    is_from: bool,
}

impl<'a> Model for Directory<'a> {
    ghost use Rattle.std.specs.Prelude.{◌≡◌, ◌≤◌, drop, length, map, take, true};
    ghost use Rattle.kt_check.specs.Late.{families_from, tasks_from};
    ghost use Rattle.kt_check.specs.Beyond.{Tells, name_of_family, name_of_task};
    ghost use Rattle.kt_check.specs.Chains.{hash_family, hash_task};
    ghost use Rattle.kt_check.specs.declared.chains.TheConstants.{COVERED};
    ghost use Rattle.kt_prog.specs.declared.programs.Program.{Program};
    ghost use Rattle.std.specs.Coded.{codes};
    ghost use Rattle.kt_prog.specs.contracts.programs.What as what;
    ghost use Rattle.kt_prog.specs.contracts.programs.Stmt as stmt;
    ghost use Rattle.kt_prog.specs.contracts.programs.Expr as expr;

    ghost Value = { Program };

    ghost coded = { Prim.hlevel (codes, what.the_row.coded, stmt.the_row.coded, expr.the_row.coded) };

    ghost view = { λ d. d.program.now };

    ghost invariant = { λ d. (d.families ≡ take COVERED (map hash_family d.program.now.families))
        × (length d.families ≤ length d.program.now.families)
        × (d.tasks ≡ take COVERED (map hash_task d.program.now.tasks))
        × (length d.tasks ≤ length d.program.now.tasks)
        × (d.is_from ≡ true
        → families_from d.from (drop (length d.families) d.program.now.families) ≡ true)
        × (d.is_from ≡ true → tasks_from d.from (drop (length d.tasks) d.program.now.tasks) ≡ true)
        × Tells d.families_beyond
        (map name_of_family (drop (length d.families) d.program.now.families))
        × Tells d.tasks_beyond (map name_of_task (drop (length d.tasks) d.program.now.tasks)) };
}

fn is_reached(is_from: bool, from: Place, place: Place) -> bool
    ensures { result ≡ (is_from && not (place_before from place)) }
{
    is_from && !is_before(from, place)
}

impl<'a> Directory<'a> {
    /// Where no declaration out of reach stands before `from`, they are passed over at places up to it. It takes no
    /// memory.
    pub fn of(program: &'a Program, from: Place) -> Directory<'a>
        ensures { result ≡ program.now }
    {
        let families = family_chains(program.families.as_slice());
        let tasks = task_chains(program.tasks.as_slice());
        let is_from = are_families_from(&program.families.as_slice()[families.len()..], from)
            && are_tasks_from(&program.tasks.as_slice()[tasks.len()..], from);
        Directory {
            program,
            families,
            tasks,
            families_beyond: Beyond::Listed,
            tasks_beyond: Beyond::Listed,
            from,
            is_from,
        }
    }

    /// The same, with the declarations out of reach by their names. Where there are none, it takes no memory.
    pub fn with_maps(
        alloc: Global,
        program: &'a Program,
        from: Place,
    ) -> Result<Directory<'a>, AllocError>
        ensures exact { IfOk result (λ directory. directory ≡ program.now) }
        ensures beyond { OnErr result (IsBeyond program.now) }
    {
        let listed = Directory::of(program, from);
        let families = &program.families.as_slice()[listed.families.len()..];
        let families_beyond = map_families(alloc, families)?;
        let tasks = &program.tasks.as_slice()[listed.tasks.len()..];
        let tasks_beyond = map_tasks(alloc, tasks)?;
        Ok(Directory {
            program,
            families: listed.families,
            tasks: listed.tasks,
            families_beyond,
            tasks_beyond,
            from: listed.from,
            is_from: listed.is_from,
        })
    }

    /// What the name is, if it is a family's.
    pub fn family_kind(&self, name: &Name) -> Option<Kind>
        ensures { result ≡ family_known self.now.families name.now }
    {
        family_kind(
            self.program.families.as_slice(),
            &self.families,
            &self.families_beyond,
            name,
        )
    }

    /// The families.
    pub fn families(&self) -> &[Family]
        ensures { result.now ≡ self.now.families }
    {
        self.program.families.as_slice()
    }

    /// The tasks and loops.
    pub fn tasks(&self) -> &[Task]
        ensures { result.now ≡ self.now.tasks }
    {
        self.program.tasks.as_slice()
    }

    /// The bodies that are run first.
    pub fn mains(&self) -> &[Main]
        ensures { result.now ≡ self.now.mains }
    {
        self.program.mains.as_slice()
    }

    /// Where the first task or loop of this name stands, or else how many there are.
    pub fn task_at(&self, name: &Name) -> usize
        ensures passed { task_named 1 self.now.tasks name.now
            ≡ task_named (suc result) (drop result self.now.tasks) name.now }
        ensures here { result < length self.now.tasks → (t : Task)
            → t ≡ get_or self.now.tasks result t → bytes_eq t.name name.now ≡ true }
    {
        task_at(
            self.program.tasks.as_slice(),
            &self.tasks,
            &self.tasks_beyond,
            name,
        )
    }

    /// Whether a declaration of this name stands before the place.
    #[tactic(auto, using(crate::proofs::Noting::declared_either))]
    pub fn is_declared_before(&self, name: &Name, place: Place) -> bool
        ensures { result ≡ is_earlier (declared_in self.now)
            (record { name = name.now; place = place }) }
    {
        let reached = is_reached(self.is_from, self.from, place);
        is_family_before(
            self.program.families.as_slice(),
            &self.families,
            reached,
            name,
            place,
        ) || is_task_before(
            self.program.tasks.as_slice(),
            &self.tasks,
            reached,
            name,
            place,
        )
    }
}
