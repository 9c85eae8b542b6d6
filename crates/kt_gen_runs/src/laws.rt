//! The law of the generated jobs. The function does nothing; its contract is the law.
ghost use Rattle.kt_gen_runs.specs.Completes.{GeneratedJobsComplete};

/// The run of each generated job comes to rows, whatever its numbers are: it has no fault, and its tasks and indexes are as
/// many as its kind and size give, within the limits.
pub fn generated_jobs_complete()
    ensures { GeneratedJobsComplete }
{}
