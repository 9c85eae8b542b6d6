//! The law of the opening. The function does nothing; its contract is the law.
ghost use Rattle.kt_pool.specs.Laws.{OpeningShowsOpeningCore};

use kt_runs::laws::programs_meet_laws;

/// The opening of a pool shows the core in which a run begins.
pub fn opening_shows_opening_core()
    ensures { OpeningShowsOpeningCore }
{
    programs_meet_laws();
}
