// What is told when a task is about to run.

/// Told when a claimed task is about to run, before its first operation.
pub trait Gate {
    /// The worker's number, and the task's.
    fn started(&self, worker: u32, task: u32);
}

/// Tells nobody.
pub struct NoGate;

impl Gate for NoGate {
    fn started(&self, _worker: u32, _task: u32) {}
}
