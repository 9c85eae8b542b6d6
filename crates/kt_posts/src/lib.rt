//! Requests between workers: how a thief asks and takes what it is answered, and how a leader answers.
//!
//! A worker without work posts a request to a victim in its own post word. One
//! of those who asked leads the requests at that victim: it has set the
//! victim's request word from 0 to 1 plus its own number. The leader holds the
//! requests that it finds posted, claims tasks for them, answers each in the
//! thief's post word, and gives up the lead. Who may write a post word when:
//!
//! - the thief itself while the word is Idle, which is the store of a request;
//! - the thief itself while it is Posted, an exchange that withdraws it;
//! - a leader at the victim while it is Posted, an exchange that holds it;
//! - this leader while it is Held, a store that answers;
//! - the thief itself while it is an answer, an exchange that takes it.
//!
//! An exchange finds a word only once, so a request is withdrawn or held and
//! never both. Two leaders never hold one thief: its word names the victim,
//! and the victim's request word names one worker. What an answer gives is in
//! one hand after another: promised by the leader, posted, given to the thief.
//!
//! THE LIFE OF A PIECE. A leader has the pieces in hand that it split from the
//! victim's interval. It writes one as a pair into the answer word of a thief
//! whose request it holds, and then the loop's record into the thief's post: from
//! then on the piece is in the post and in nobody's hand. The thief loads its
//! answer word once it saw this answer, and takes the answer: the piece is in
//! its hand. Between the two only this leader may write the answer word, since
//! it holds the request; afterwards nobody, until the thief asks anew.
//!
//! A call is one step of the table, but for the ones that look at a post, which
//! load it and take an answer by an exchange that finds what was loaded, and
//! for the one that answers with a piece, which stores two words.
#![tactic(auto)]

mod answers;
pub mod laws;
mod leaders;
mod thieves;

pub use answers::{Answer, Lead};
pub use leaders::{answer_failed, answer_piece, answer_task, hold, lead, release};
pub use thieves::{look, post, withdraw};
