//! Loops on threads: how a loop begins, and how its positions are taken, split and retired.
//!
//! THE LIFE OF AN INTERVAL. The indexes of all loops have positions in one count. Whoever runs a loop draws as many as it is long, writes the
//! first into the loop's record, then the record's number into its home word, and stores all positions in its interval word: from then on the
//! loop has begun. A worker takes chunks from the front of its own interval, a thief cuts pieces from its end; each is one exchange of the very
//! word that was loaded, so no position is lost or taken twice. A piece goes to a thief by its post, and is the thief's own interval then.
//! What was taken is run, and retired by one fetch on the count of indexes in the loop's record; where nothing is left there, the loop is done.
//!
//! WHO MAY WRITE WHICH WORD WHEN. The count of drawn positions: anybody who begins a loop, by a fetch. The home word: its worker, while its
//! interval is empty. The interval word: its worker while it is empty, and anybody by an exchange that takes from it. The count of indexes:
//! whoever has indexes of the loop in hand, by a fetch. So the home word of an interval that is not empty stays, and as no position is drawn
//! twice, an interval that was once taken from never comes back: a thief that loads the interval, then the home word, and then exchanges
//! the interval has read the record of that very interval.
#![tactic(auto)]

mod indexes;
pub mod laws;
mod loops;
mod pieces;
mod records;
mod splits;

pub use indexes::{first_of, left, retire};
pub use loops::{Begun, begin_loop};
pub use pieces::{Taken, chunk, take_piece};
pub use splits::{Divided, split};
