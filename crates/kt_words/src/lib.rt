//! The words of a run: where each stands in the table that the workers share, and how values are packed into them.
#![tactic(auto)]

mod access_words;
mod bits;
pub mod fields;
mod heads;
pub mod laws;
mod layouts;
mod pairs;
mod posts;
mod states;
#[cfg(test)]
mod tests;

pub use access_words::{pack_access, unpack_access};
pub use heads::{HeadWord, pack_head, unpack_head};
pub use layouts::{FIELDS, Layout, RECORDS};
pub use pairs::{Pair, pack_pair, unpack_pair};
pub use posts::{Post, pack_post, unpack_post};
pub use states::{StateWord, pack_state, unpack_state};
