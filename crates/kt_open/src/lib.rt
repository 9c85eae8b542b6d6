//! Opening a job: its program is read and checked, and its data are read.
#![tactic(auto)]

mod opening;

pub use opening::{Unopened, open_data, open_job, open_program};
