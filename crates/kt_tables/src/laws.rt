//! The laws of the table of tasks. The functions do nothing; their contracts are the laws.
ghost use Rattle.kt_tables.specs.TableEnabled.{RefusedIsDisabled};
ghost use Rattle.kt_tables.specs.TableTheory.{TableEventsAreEvents};
ghost use Rattle.kt_tables.specs.TableLaws.{DoneTableIsReference, EventsKeepTablesLawful, OpeningTableIsLawful, SomeTableEventGoes, TablesHaveNoMore};

use kt_faults::laws::same_faults_same_answer;
use kt_prog::laws::{bodies_keep, loops_are_direct};
use kt_runs::laws::programs_meet_laws;

/// The table with which a run begins is lawful.
pub fn opening_table_is_lawful()
    ensures { OpeningTableIsLawful }
{
    programs_meet_laws();
}

/// An event that nothing refuses leaves a lawful table lawful.
pub fn events_keep_tables_lawful()
    ensures { EventsKeepTablesLawful }
{
    bodies_keep();
    loops_are_direct();
    programs_meet_laws();
}

/// An event that nothing refuses is the event of the theory at the place of its task.
pub fn table_events_are_events()
    ensures { TableEventsAreEvents }
{
    bodies_keep();
    loops_are_direct();
    programs_meet_laws();
}

/// A lawful table with `main` finished has what the reference run has.
pub fn done_table_is_reference()
    ensures { DoneTableIsReference }
{
    bodies_keep();
    loops_are_direct();
    programs_meet_laws();
    same_faults_same_answer();
}

/// A lawful table has no more tasks and no more indexes than the reference run.
pub fn tables_have_no_more()
    ensures { TablesHaveNoMore }
{
    bodies_keep();
    loops_are_direct();
    programs_meet_laws();
}

/// While `main` is not finished and there is room, some event can be done.
pub fn some_table_event_goes()
    ensures { SomeTableEventGoes }
{
    bodies_keep();
    loops_are_direct();
    programs_meet_laws();
}

/// Nothing refuses an event just where it can be done.
pub fn refused_is_disabled()
    ensures { RefusedIsDisabled }
{}
