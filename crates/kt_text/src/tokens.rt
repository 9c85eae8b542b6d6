// Tokens of a text.

use kt_law::Place;

/// What a token is. Which word or sign it is, its text says.
#[derive(Clone, Copy, Debug, PartialEq, Eq)]
pub enum TokenKind {
    /// A letter or `_`, then letters, digits and `_`.
    Word,
    /// Digits, and the number that they write.
    Number(u64),
    /// A sign of one or two bytes.
    Sign,
    /// The end of the text.
    End,
}

/// A token. Its text is the bytes from `start` up to `stop`, `stop` not included; its place is that of its first byte.
#[derive(Clone, Copy, Debug, PartialEq, Eq)]
pub struct Token {
    pub kind: TokenKind,
    pub place: Place,
    pub start: usize,
    pub stop: usize,
}
