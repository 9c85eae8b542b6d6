// From the tokens of a text to those of the grammar.
ghost use Rattle.std.specs.Prelude.{◌≡◌, ◌≤◌, length, slice_range};
ghost use Rattle.kt_prog.specs.Names.{IsName};
ghost use Rattle.kt_text.specs.declared.tokens.TokenKind.TheVariants as K;
ghost use Rattle.kt_tokens.specs.Words.{mark_in, operators, punctuation, reserved, symbol_of, tok_of};

use crate::tokens::{Mark, Symbol, Tok, Word};
use kt_text::{Token, TokenKind};

/// The token as the grammar sees it.
pub fn tok<'a>(job: &'a [u8], token: &Token) -> Tok<'a>
    requires ordered { token.now.start ≤ token.now.stop }
    requires within { token.now.stop ≤ length job.now }
    requires name { token.now.kind ≡ K.Word
        → IsName (slice_range job.now token.now.start token.now.stop) }
    ensures { result ≡ tok_of job.now token.now }
{
    let text = &job[token.start..token.stop];
    let symbol = match token.kind {
        TokenKind::Word => word(text),
        TokenKind::Number(number) => Symbol::Number(number),
        TokenKind::Sign => sign(text),
        TokenKind::End => Symbol::End,
    };
    Tok {
        symbol,
        place: token.place,
    }
}

fn word(text: &[u8]) -> Symbol<'_>
    requires { IsName text.now }
    ensures { result ≡ symbol_of K.Word text.now }
{
    match reserved(text) {
        Some(mark) => Symbol::Mark(mark),
        None => Symbol::Name(Word::new(text)),
    }
}

fn sign(text: &[u8]) -> Symbol<'static>
    ensures { result ≡ symbol_of K.Sign text.now }
{
    if let Some(mark) = punctuation(text) {
        return Symbol::Mark(mark);
    }
    match operator(text) {
        Some(mark) => Symbol::Mark(mark),
        None => Symbol::End,
    }
}

/// The reserved word that this is.
#[tactic(auto, unfolding(crate::specs::Words::reserved))]
fn reserved(text: &[u8]) -> Option<Mark>
    ensures { result ≡ mark_in reserved text.now }
{
    if text == b"object".as_slice() {
        Some(Mark::Object)
    } else if text == b"task".as_slice() {
        Some(Mark::Task)
    } else if text == b"loop".as_slice() {
        Some(Mark::Loop)
    } else if text == b"main".as_slice() {
        Some(Mark::Main)
    } else if text == b"let".as_slice() {
        Some(Mark::Let)
    } else if text == b"if".as_slice() {
        Some(Mark::If)
    } else if text == b"else".as_slice() {
        Some(Mark::Else)
    } else if text == b"for".as_slice() {
        Some(Mark::For)
    } else if text == b"in".as_slice() {
        Some(Mark::In)
    } else if text == b"fork".as_slice() {
        Some(Mark::Fork)
    } else if text == b"data".as_slice() {
        Some(Mark::Data)
    } else {
        None
    }
}

/// The bracket or the sign between parts that this is.
#[tactic(auto, unfolding(crate::specs::Words::punctuation))]
fn punctuation(text: &[u8]) -> Option<Mark>
    ensures { result ≡ mark_in punctuation text.now }
{
    if text == b"{".as_slice() {
        Some(Mark::BraceOpen)
    } else if text == b"}".as_slice() {
        Some(Mark::BraceClose)
    } else if text == b"(".as_slice() {
        Some(Mark::ParenOpen)
    } else if text == b")".as_slice() {
        Some(Mark::ParenClose)
    } else if text == b"[".as_slice() {
        Some(Mark::SquareOpen)
    } else if text == b"]".as_slice() {
        Some(Mark::SquareClose)
    } else if text == b",".as_slice() {
        Some(Mark::Comma)
    } else if text == b";".as_slice() {
        Some(Mark::Semicolon)
    } else if text == b"=".as_slice() {
        Some(Mark::Becomes)
    } else if text == b"..".as_slice() {
        Some(Mark::Dots)
    } else {
        None
    }
}

/// The operator that this is.
#[tactic(auto, unfolding(crate::specs::Words::operators))]
fn operator(text: &[u8]) -> Option<Mark>
    ensures { result ≡ mark_in operators text.now }
{
    if text == b"==".as_slice() {
        Some(Mark::Eq)
    } else if text == b"!=".as_slice() {
        Some(Mark::Ne)
    } else if text == b"<".as_slice() {
        Some(Mark::Lt)
    } else if text == b"<=".as_slice() {
        Some(Mark::Le)
    } else if text == b">".as_slice() {
        Some(Mark::Gt)
    } else if text == b">=".as_slice() {
        Some(Mark::Ge)
    } else if text == b"+".as_slice() {
        Some(Mark::Plus)
    } else if text == b"-".as_slice() {
        Some(Mark::Minus)
    } else if text == b"*".as_slice() {
        Some(Mark::Star)
    } else if text == b"/".as_slice() {
        Some(Mark::Slash)
    } else if text == b"%".as_slice() {
        Some(Mark::Percent)
    } else {
        None
    }
}
