//! Requests for work: a thief posts one and looks at its post, one of those who asked leads and serves them all.
//!
//! A call of `serve` holds every request that it finds posted at a victim, goes once through the victim's records, and answers
//! all held thieves from that one scan. A scan is made of loads while others go on; each of its notes says what stays so, and a
//! claim exchanges the very word that was noted. So a note that grew old costs at most the claim.
//!
//! THE LIFE OF A PIECE. Where the scan leaves thieves without a task, the victim's interval is split once, for as many parts as
//! thieves are left: one exchange leaves the victim the first positions, and the pieces are in the leader's hand. Each goes on at
//! once, in rising order, into the answer word and the post of the next thief, so none is left in hand when the lead is given up.
//! Where the split gave fewer pieces than thieves are left, or none, the others are told that there is nothing.
#![tactic(auto)]

mod answering;
mod holding;
mod records;
mod scanning;
mod served;
mod serving;
mod splitting;

pub use kt_loops::Divided;
pub use kt_posts::{Answer, Lead, lead, look, post, withdraw};
pub use served::{Served, THIEVES};
pub use serving::serve;
