// What is asked for a job.
ghost use Rattle.std.specs.Prelude.{◌≤◌};
ghost use Rattle.kt_gen.specs.Jobs.{IsSize};
ghost use Rattle.kt_law.specs.declared.limits.TheConstants.{WORKERS};

use kt_text::Kind;

/// How a run by events is chosen: with this many workers, by this number.
#[derive(Clone, Copy)]
pub struct Choice {
    pub workers: u32,
    pub number: u64,
    ghost few: { (1 ≤ workers) × (workers ≤ WORKERS) },
}

/// How a job is run. Its answer is the same.
#[derive(Clone, Copy)]
pub enum Way {
    /// In reference order.
    Owner,
    /// By events of the core.
    Events(Choice),
}

/// What is asked for a job.
#[derive(Clone, Copy)]
pub enum Asked {
    /// Its canonical text.
    Check,
    /// Its run.
    Run(Way),
}

/// A generated job, which no source gives: its kind, its size, and the number from which its numbers are drawn.
#[derive(Clone, Copy)]
pub struct Generated {
    pub kind: Kind,
    pub size: u32,
    pub number: u64,
    ghost sized: { IsSize kind size },
}
