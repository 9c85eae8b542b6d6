//! The laws of the theory for tasks that are named by path. The functions do nothing; their contracts are the laws.
ghost use Rattle.kt_order.specs.PathTheorems.{ActAtPath, ClaimAtPath, EndAtPath, FinishAtPath, FinishedByPaths, ForkAtPath, PathBeginsEntry, PathsWeighNoMore, SomePathGoes};

use crate::Program;

/// A claim at a path keeps a state lawful.
pub fn claim_at_path<P: Program>()
    ensures { ClaimAtPath P.machine P.rights }
{}

/// So does a finish.
pub fn finish_at_path<P: Program>()
    ensures { FinishAtPath P.machine P.rights }
{}

/// So does the end of a body.
pub fn end_at_path<P: Program>()
    ensures { EndAtPath P.machine P.rights }
{}

/// So does an act.
pub fn act_at_path<P: Program>()
    ensures { ActAtPath P.machine P.rights }
{}

/// So does a fork, where there is room for the child.
pub fn fork_at_path<P: Program>()
    ensures { ForkAtPath P.machine P.rights }
{}

/// While the root is not finished, an event is enabled at some path.
pub fn some_path_goes<P: Program>()
    ensures { SomePathGoes P.machine P.rights }
{}

/// With the root finished, the tasks in the order of their paths are the sequential run.
pub fn finished_by_paths<P: Program>()
    ensures { FinishedByPaths P.machine P.rights }
{}

/// What the task at a path has done is the beginning of what it does in the sequential run.
pub fn path_begins_entry<P: Program>()
    ensures { PathBeginsEntry P.machine P.rights }
{}

/// With any weights of calls and acts, the tasks with what each has at hand weigh no more than the sequential run.
pub fn paths_weigh_no_more<P: Program>()
    ensures { PathsWeighNoMore P.machine P.rights }
{}
