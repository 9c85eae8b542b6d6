//! The laws of the theory. The functions do nothing; their contracts are the laws.
ghost use Rattle.kt_order.specs.Theorems.{DoneStays, EventKeepsLawful, EveryOrderIsSequential, FinishedIsSequential, MovesLeftFall, NextIsFirst, NoMoreTasks, OpeningIsLawful, RunKeepsLawful, SideBySideAreApart, SomeEventIsEnabled, TasksBeginEntries, TasksWeighNoMore, UpperGoesPast};

use crate::Program;

/// The state in which a run begins is lawful.
pub fn opening_is_lawful<P: Program>()
    ensures { OpeningIsLawful P.machine P.rights }
{}

/// An event that is enabled in a lawful state leaves a lawful state.
pub fn event_keeps_lawful<P: Program>()
    ensures { EventKeepsLawful P.machine P.rights }
{}

/// So does a list of events, each enabled where the earlier ones lead.
pub fn run_keeps_lawful<P: Program>()
    ensures { RunKeepsLawful P.machine P.rights }
{}

/// A lawful state whose root is finished has the store and the entries of the sequential run.
pub fn finished_is_sequential<P: Program>()
    ensures { FinishedIsSequential P.machine P.rights }
{}

/// While the root is not finished, some event is enabled.
pub fn some_event_is_enabled<P: Program>()
    ensures { SomeEventIsEnabled P.machine P.rights }
{}

/// Every list of enabled events that finishes the root gives the sequential run.
pub fn every_order_is_sequential<P: Program>()
    ensures { EveryOrderIsSequential P.machine P.rights }
{}

/// What each task of a lawful state has done is the beginning of what it does in the sequential run.
pub fn tasks_begin_entries<P: Program>()
    ensures { TasksBeginEntries P.machine P.rights }
{}

/// A lawful state has no more tasks than the sequential run.
pub fn no_more_tasks<P: Program>()
    ensures { NoMoreTasks P.machine P.rights }
{}

/// So it is with any weights of calls and acts, and with what each task has at hand.
pub fn tasks_weigh_no_more<P: Program>()
    ensures { TasksWeighNoMore P.machine P.rights }
{}

/// Each event lowers the number of events that are left, so every list of events ends.
pub fn moves_left_fall<P: Program>()
    ensures { MovesLeftFall P.machine P.rights }
{}

/// Two tasks under way, neither of them above the other, are apart.
pub fn side_by_side_are_apart<P: Program>()
    ensures { SideBySideAreApart P.machine P.rights }
{}

/// Of two tasks in one line, all that the upper one still does goes past all that the lower may do.
pub fn upper_goes_past<P: Program>()
    ensures { UpperGoesPast P.machine P.rights }
{}

/// The operation that is next after what a body has done is the first of what is left.
pub fn next_is_first<P: Program>()
    ensures { NextIsFirst P.machine }
{}

/// What a body has done stays what it has done, whatever answers come after.
pub fn done_stays<P: Program>()
    ensures { DoneStays P.machine }
{}
