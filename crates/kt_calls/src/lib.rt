//! The calls of a seat, as a worker makes them: one interface between the worker's loop and the calls on the shared words.
//!
//! What a call asks of the seat's view and what it makes of it is said here in
//! the very words of the call itself. So the loop is proved without the table,
//! and what it rests on stands on one page.
#![tactic(auto)]

mod calls;

pub use calls::Run;
pub use kt_loops::{Begun, Taken};
pub use kt_posts::{Answer, Lead};
pub use kt_tasks::{Claim, Published};
