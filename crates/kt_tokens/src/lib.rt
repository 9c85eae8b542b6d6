//! The tokens of a job as the grammar sees them, one after another.
#![tactic(auto)]

mod gauge;
mod source;
mod tokens;
mod words;

pub use gauge::{Gauge, Reach, Span};
pub use source::{Source, Unread};
pub use tokens::{Mark, Symbol, Tok, Word};
