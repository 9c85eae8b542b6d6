// The tokens of a text, one after another.
ghost use Rattle.std.specs.Prelude.{◌≡◌, ◌+◌, ◌<◌, ◌≤◌, length, IfOk};
ghost use Rattle.kt_text.specs.Lexing.{Lexing};
ghost use Rattle.kt_text.specs.Tokens.{next_token, stop_of};
ghost use Rattle.kt_text.specs.Laws.{IsBehind};

use crate::gaps::skip_gap;
use crate::lexemes::lexeme;
use crate::tokens::Token;
use kt_law::{Place, Refusal};
use std::marker::Model;

/// A text that is read token by token. Contracts see the text, and how many bytes lie behind.
#[derive(Drop)]
pub struct Lexer<'a> {
    text: &'a [u8],
    at: usize,
    place: Place,
}

impl<'a> Model for Lexer<'a> {
    ghost use Rattle.std.specs.Prelude.{◌≡◌, ◌+◌, ◌<◌, ◌≤◌, ◌^◌, length};
    ghost use Rattle.kt_text.specs.Places.{place_of};
    ghost use Rattle.kt_text.specs.Lexing.{Lexing};

    ghost Value = { Lexing };

    ghost view = { λ l. record { text = l.text.now; at = l.at } };

    ghost invariant = { λ l. (l.at ≤ length l.text.now) × (length l.text.now + 1 < 2 ^ 32)
        × (l.place ≡ place_of l.text.now l.at) };
}

impl<'a> Lexer<'a> {
    /// Begins before the first byte. The numbers of a place are `u32`, so a longer text would have none.
    pub fn new(text: &'a [u8]) -> Self
        requires { length text.now < u32.MAX }
        ensures { result ≡ record { text = text.now; at = 0 } }
    {
        Lexer {
            text,
            at: 0,
            place: Place { line: 1, column: 1 },
        }
    }

    /// The next token, or the refusal of the bytes that stand in its place. A refusal, and the end of the text, are
    /// answered again by the next call.
    pub fn next(&mut self) -> Result<Token, Refusal>
        ensures token { result ≡ next_token self.old.text self.old.at }
        ensures moved { self.new ≡ record self.old { at = stop_of result self.old.at } }
        ensures within { IfOk result (IsBehind self.old.text self.old.at) }
    {
        let (start, place) = skip_gap(self.text, self.at, self.place);
        match lexeme(&self.text[start..]) {
            Ok((kind, length)) => {
                let stop = start + length;
                self.at = stop;
                self.place = Place {
                    line: place.line,
                    column: place.column + length as u32,
                };
                Ok(Token {
                    kind,
                    place,
                    start,
                    stop,
                })
            }
            Err(code) => Err(Refusal { code, place }),
        }
    }
}
