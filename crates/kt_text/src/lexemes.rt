// The token at the front of a text.
ghost use Rattle.std.specs.Prelude.{◌≡◌, slice_index};
ghost use Rattle.kt_text.specs.Lexemes.{lexeme_of, number_of, sign_of, word_of};

use crate::bytes::{digits_length, is_letter, is_pair, is_single, value, word_length};
use crate::tokens::TokenKind;
use kt_law::{P, WORD_BYTES};

/// The kind and the length of the token at the front, or the rule that it breaks.
pub(crate) fn lexeme(text: &[u8]) -> Result<(TokenKind, usize), P>
    ensures { result ≡ lexeme_of text.now }
{
    let Some(first) = text.first() else {
        return Ok((TokenKind::End, 0));
    };
    if is_letter(*first) {
        word(word_length(text))
    } else if first.is_ascii_digit() {
        number(text)
    } else {
        sign(*first, byte_at(text, 1))
    }
}

fn word(length: usize) -> Result<(TokenKind, usize), P>
    ensures { result ≡ word_of length }
{
    if length > WORD_BYTES {
        Err(P::P2)
    } else {
        Ok((TokenKind::Word, length))
    }
}

fn number(text: &[u8]) -> Result<(TokenKind, usize), P>
    ensures { result ≡ number_of text.now }
{
    let length = digits_length(text);
    if is_letter(byte_at(text, length)) {
        return Err(P::P2);
    }
    match value(&text[..length]) {
        Some(n) => Ok((TokenKind::Number(n), length)),
        None => Err(P::P3),
    }
}

fn sign(first: u8, second: u8) -> Result<(TokenKind, usize), P>
    ensures { result ≡ sign_of first second }
{
    if is_pair(first, second) {
        Ok((TokenKind::Sign, 2))
    } else if is_single(first) {
        Ok((TokenKind::Sign, 1))
    } else if first == b'!' || first == b'.' {
        Err(P::P2)
    } else {
        Err(P::P1)
    }
}

/// The byte there, or 0 at the end. A 0 belongs to no token.
pub(crate) fn byte_at(text: &[u8], at: usize) -> u8
    ensures { result ≡ slice_index text.now at }
{
    text.get(at).copied().unwrap_or(0)
}
