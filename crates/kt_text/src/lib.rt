//! The text of a job byte by byte: its tokens, its data, and the words that the program is called with.
#![tactic(auto)]

mod bytes;
mod commands;
mod data;
mod gaps;
pub mod laws;
mod lexemes;
mod lexing;
#[cfg(test)]
mod tests;
mod tokens;
mod words;

pub use commands::{Command, Kind, Usage};
pub use data::{DataError, read_data};
pub use lexing::Lexer;
pub use tokens::{Token, TokenKind};
pub use words::read_words;
