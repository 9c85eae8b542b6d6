// Tests of phases.
ghost use Rattle.std.specs.Prelude.{◌≡◌, ◌||◌};
ghost use Rattle.kt_tables.specs.TableEvents.{is_ended, is_looping, is_running, is_unclaimed};
ghost use Rattle.kt_tables.specs.Tables.{is_finished};

use crate::events::Phase;

impl Phase {
    /// Whether nobody has claimed the task.
    pub fn is_unclaimed(self) -> bool
        ensures { result ≡ is_unclaimed self }
    {
        match self {
            Phase::Unclaimed => true,
            _ => false,
        }
    }

    /// Whether its body runs.
    pub fn is_running(self) -> bool
        ensures { result ≡ is_running self }
    {
        match self {
            Phase::Running => true,
            _ => false,
        }
    }

    /// Whether its indexes are there to be taken.
    pub fn is_looping(self) -> bool
        ensures { result ≡ is_looping self }
    {
        match self {
            Phase::Looping => true,
            _ => false,
        }
    }

    /// Whether its body is done and it is not finished.
    pub fn has_ended(self) -> bool
        ensures { result ≡ (is_ended self || is_looping self) }
    {
        match self {
            Phase::Ended => true,
            Phase::Looping => true,
            _ => false,
        }
    }

    /// Whether it is finished, and its children before it.
    pub fn is_finished(self) -> bool
        ensures { result ≡ is_finished self }
    {
        match self {
            Phase::Finished => true,
            _ => false,
        }
    }
}
