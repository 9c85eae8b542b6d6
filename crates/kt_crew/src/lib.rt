//! All workers of one run, from the opening of its pool to the close.
//!
//! All memory is taken first: the pool, and for each worker what it works with. Then each worker gets its seat and a thread, where one can be
//! made, and works until it knows that `main` is finished or that the run stops. At last the seats are joined again, and the close tells
//! what the words and the seats say. The answer is that of the reference run, whatever the workers did in whatever order.
#![tactic(auto)]

mod jobs;
mod running;

pub use running::run_all;
