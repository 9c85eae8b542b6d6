//! The laws of runs over a core as a function from paths to tasks. The functions do nothing; their contracts are the laws.
ghost use Rattle.kt_runs.specs.PathLaws.{ActByPath, BeginsReferenceByPath, CallsFitPaths, ChildrenAreTasks, ClaimInOrderByPath, ClaimReadyByPath, DoneByPath, EndAndFinishByPath, EndByPath, FinishByPath, ForkByPath, ForkedCallByPath, IndexClaimByPath, IndexHasNoChildren, LineAgreesByPath, NextGoesOn, NoMoreIndexesByPath, NoMoreTasksByPath, OpensByPath, SeparateAgreeByPath, TasksAreListed, WeighsNoMoreByPath};

use crate::laws::{programs_meet_laws, programs_obey, side_by_side_agree};
use kt_law::laws::{agreement_is_symmetric, hands_on_less};
use kt_prog::laws::{bodies_keep, loops_are_direct};

/// A core opens with main alone.
pub fn opens()
    ensures { OpensByPath }
{
    programs_meet_laws();
}

/// The calls of a lawful core fit their paths.
pub fn calls_fit_paths()
    ensures { CallsFitPaths }
{
    bodies_keep();
    programs_meet_laws();
}

/// The children of a task have the numbers below its count.
pub fn children_are_tasks()
    ensures { ChildrenAreTasks }
{
    bodies_keep();
    programs_meet_laws();
}

/// The list of paths has each path that leads to a task once, and no other.
pub fn tasks_are_listed()
    ensures { TasksAreListed }
{}

/// The next operation of a task is what its body goes on by.
pub fn next_goes_on()
    ensures { NextGoesOn }
{}

/// A claim of a task, where each earlier child of its parent is finished.
pub fn claim_in_order()
    ensures { ClaimInOrderByPath }
{
    programs_meet_laws();
}

/// A claim of a task with which no earlier child of its parent clashes that is not finished.
pub fn claim_ready()
    ensures { ClaimReadyByPath }
{
    bodies_keep();
    programs_meet_laws();
}

/// A claim of an index of a loop.
pub fn claim_index()
    ensures { IndexClaimByPath }
{
    bodies_keep();
    loops_are_direct();
    programs_meet_laws();
}

/// An act of a running task.
pub fn act()
    ensures { ActByPath }
{
    programs_meet_laws();
}

/// The end of a running task, or its fault.
pub fn end()
    ensures { EndByPath }
{
    programs_meet_laws();
}

/// What a task forks next fits the path of its next child.
pub fn forked_call()
    ensures { ForkedCallByPath }
{
    bodies_keep();
    programs_meet_laws();
}

/// A fork adds that child.
pub fn fork()
    ensures { ForkByPath }
{
    bodies_keep();
    programs_meet_laws();
}

/// A finish of a task that has ended and whose children are finished.
pub fn finish()
    ensures { FinishByPath }
{
    programs_meet_laws();
}

/// An end and a finish at once, of a task whose children are finished.
pub fn end_and_finish()
    ensures { EndAndFinishByPath }
{
    programs_meet_laws();
}

/// An index has no children.
pub fn index_has_no_children()
    ensures { IndexHasNoChildren }
{
    bodies_keep();
    programs_meet_laws();
}

/// With main finished a lawful core has what the reference run has.
pub fn done()
    ensures { DoneByPath }
{
    programs_meet_laws();
}

/// What a task or an index has done is the beginning of its entry of the reference run.
pub fn begins_reference()
    ensures { BeginsReferenceByPath }
{}

/// With any weights of calls and acts, the tasks with what each has at hand weigh no more than the reference run.
pub fn weighs_no_more()
    ensures { WeighsNoMoreByPath }
{
    programs_meet_laws();
}

/// The tasks with those at hand are no more than those of the reference run.
pub fn no_more_tasks()
    ensures { NoMoreTasksByPath }
{
    programs_meet_laws();
}

/// Nor are the indexes.
pub fn no_more_indexes()
    ensures { NoMoreIndexesByPath }
{
    programs_meet_laws();
}

/// The modes of two tasks under way agree, neither path beginning with the other.
pub fn separate_agree()
    ensures { SeparateAgreeByPath }
{
    programs_meet_laws();
    side_by_side_agree();
}

/// The direct modes of a task that is no loop agree with the modes of all tasks below it.
pub fn line_agrees()
    ensures { LineAgreesByPath }
{
    bodies_keep();
    programs_obey();
    programs_meet_laws();
    agreement_is_symmetric();
    hands_on_less();
}
