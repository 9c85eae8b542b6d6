//! The laws of the rule. The functions do nothing; their contracts are the laws.
ghost use Rattle.kt_steps.specs.Laws.{ActEnters, ClaimForEnters, ClaimOwnEnters, CloseGives, FinishEnters, OpeningIsRuled, PublishEnters, ShowsLawfulCore, StartEnters};

use kt_runs::laws::programs_meet_laws;

/// Between any two steps the core that words and views show is lawful.
pub fn shows_lawful_core()
    ensures { ShowsLawfulCore }
{}

/// A table as it is made meets the rule.
pub fn opening_is_ruled()
    ensures { OpeningIsRuled }
{
    programs_meet_laws();
}

/// Once all seats are back, the one that has them knows what the run has done.
pub fn close_gives()
    ensures { CloseGives }
{}

/// A claim of an own record in order enters a claim.
pub fn claim_own_enters()
    ensures { ClaimOwnEnters }
{}

/// A claim for a thief of an entry that the notes say is ready enters a claim, whenever the notes were made.
pub fn claim_for_enters()
    ensures { ClaimForEnters }
{}

/// The start of a given task enters nothing: it was claimed before.
pub fn start_enters()
    ensures { StartEnters }
{}

/// A step on an element enters an act of the running body.
pub fn act_enters()
    ensures { ActEnters }
{}

/// The store of Finished enters the end of the running body, or its fault, and the finish of its task.
pub fn finish_enters()
    ensures { FinishEnters }
{}

/// The store that publishes a record enters a fork of the running body.
pub fn publish_enters()
    ensures { PublishEnters }
{}
