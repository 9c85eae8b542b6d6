// The tokens of a job, one after another.
ghost use Rattle.std.specs.Prelude.{◌≡◌, ◌<◌, ◌≤◌, ◌↔◌, IsTrue, MatchResult, Some, length, false, true};
ghost use Rattle.kt_text.specs.Tokens.{next_token, stop_of};
ghost use Rattle.kt_tokens.specs.Ahead.{all_ahead, mark_of, next_of, refusal_in, rest_of, tok_or_end};
ghost use Rattle.kt_tokens.specs.Reading.{any, AName, ANumber, AWord, Answers, Sign};
ghost use Rattle.kt_tokens.specs.Gauge.{is_over};
ghost use Rattle.kt_tokens.specs.declared.source.Unread.TheVariants.{NoMemory, TooDeep};
ghost use Rattle.kt_tokens.specs.declared.tokens.Symbol.TheVariants as S;

use crate::gauge::Gauge;
use crate::tokens::{Mark, Symbol, Tok};
use crate::words::tok;
use kt_law::{Place, Refusal};
use kt_prog::Name;
use kt_text::Lexer;
use std::alloc::{AllocError, AllocFailed};
use std::marker::Model;

/// Why a part was not read.
#[derive(Clone, Copy, Debug, PartialEq, Eq)]
pub enum Unread {
    /// The next token cannot stand there, or no token is next.
    Refused,
    /// The next token nests too deep.
    TooDeep,
    NoMemory,
}

impl From<AllocError> for Unread {
    ghost from_gives = { λ _ why. why ≡ NoMemory };

    fn from(_: AllocError) -> Self {
        Unread::NoMemory
    }
}

impl<T: Drop> From<AllocFailed<T>> for Unread {
    ghost from_gives = { λ _ why. why ≡ NoMemory };

    fn from(_: AllocFailed<T>) -> Self {
        Unread::NoMemory
    }
}

/// A token that was found, and where it ends. A refusal looks like the end of the text.
#[derive(Drop)]
struct Found<'a> {
    tok: Tok<'a>,
    stop: usize,
    refusal: Option<Refusal>,
}

/// A job that is read token by token, with the next token at hand. Contracts see its bytes, where the last token that was
/// read ends, and how deep the text nests there.
#[derive(Drop)]
pub struct Source<'a> {
    job: &'a [u8],
    lexer: Lexer<'a>,
    at: usize,
    next: Found<'a>,
    gauge: Gauge,
}

impl<'a> Model for Source<'a> {
    ghost use Rattle.std.specs.Prelude.{◌≡◌, ◌<◌, ◌≤◌, length};
    ghost use Rattle.kt_law.specs.declared.limits.TheConstants.{BRACKETS};
    ghost use Rattle.kt_text.specs.Tokens.{next_token, stop_of};
    ghost use Rattle.kt_tokens.specs.Ahead.{Ahead, refusal_in, tok_or_end};

    ghost Value = { Ahead };

    ghost view = { λ s. record { bytes = s.job.now; at = s.at; gauge = s.gauge } };

    ghost invariant = { λ s.
        (s.lexer ≡ record { text = s.job.now; at = s.next.stop }) ×
        (s.next.stop ≡ stop_of (next_token s.job.now s.at) s.at) ×
        (s.next.tok ≡ tok_or_end s.job.now (next_token s.job.now s.at)) ×
        (s.next.refusal ≡ refusal_in (next_token s.job.now s.at)) ×
        (s.at ≤ length s.job.now) ×
        (s.next.stop ≤ length s.job.now) ×
        (s.gauge.brackets ≤ BRACKETS) };
}

impl<'a> Source<'a> {
    /// Before the first token.
    pub fn new(job: &'a [u8]) -> Self
        requires { length job.now < u32.MAX }
        ensures { result ≡ all_ahead job.now }
    {
        let mut lexer = Lexer::new(job);
        let mut next = Found {
            tok: Tok {
                symbol: Symbol::End,
                place: Place { line: 1, column: 1 },
            },
            stop: 0,
            refusal: None,
        };
        find(job, &mut lexer, 0, &mut next);
        Source {
            job,
            lexer,
            at: 0,
            next,
            gauge: Gauge::new(),
        }
    }

    /// The next token. It is the end of the text too where a refusal stands.
    pub fn next(&self) -> &Tok<'a>
        ensures { result.now ≡ next_of self.now }
    {
        &self.next.tok
    }

    /// The refusal of the bytes that stand in place of the next token.
    pub fn refusal(&self) -> Option<Refusal>
        ensures { result ≡ refusal_in (next_token self.now.bytes self.now.at) }
    {
        self.next.refusal
    }

    /// Where the last token that was read ends.
    pub fn at(&self) -> usize
        ensures at { result ≡ self.now.at }
        ensures within { result ≤ length self.now.bytes }
    {
        self.at
    }

    /// Goes on to the token behind the next one, unless that nests too deep.
    pub fn advance(&mut self) -> Result<(), Unread>
        requires { (next_of self.now).symbol ≡ S.End → ⊥ }
        ensures { MatchResult result
            (λ _. (self.new ≡ rest_of self.old)
            × (is_over self.old.gauge (next_of self.old).symbol ≡ false))
            (λ why. (why ≡ TooDeep) × (self.new ≡ self.old)
            × (is_over self.old.gauge (next_of self.old).symbol ≡ true)) }
    {
        if self.gauge.is_over(&self.next.tok.symbol) {
            return Err(Unread::TooDeep);
        }
        self.gauge.pass(&self.next.tok.symbol);
        self.at = self.next.stop;
        find(self.job, &mut self.lexer, self.at, &mut self.next);
        Ok(())
    }

    /// The sign or the reserved word that is next.
    pub fn mark(&self) -> Option<Mark>
        ensures { result ≡ mark_of (next_of self.now).symbol }
    {
        match &self.next().symbol {
            Symbol::Mark(mark) => Some(*mark),
            _ => None,
        }
    }

    /// Whether this sign or reserved word is next.
    pub fn is(&self, mark: Mark) -> bool
        ensures { IsTrue result ↔ (mark_of (next_of self.now).symbol ≡ Some mark) }
    {
        match self.mark() {
            Some(found) => found == mark,
            None => false,
        }
    }

    /// Whether this word, which is not reserved, is next.
    pub fn is_word(&self, word: &[u8]) -> bool
        ensures { IsTrue result ↔ ((next_of self.now).symbol ≡ S.Name word.now) }
    {
        match &self.next().symbol {
            Symbol::Name(name) => name.as_bytes() == word,
            _ => false,
        }
    }

    /// Reads this sign or reserved word, and gives its place.
    pub fn expect(&mut self, mark: Mark) -> Result<Place, Unread>
        ensures { Answers (Sign mark) any self.old self.new result }
    {
        if !self.is(mark) {
            return Err(Unread::Refused);
        }
        let place = self.next().place;
        self.advance()?;
        Ok(place)
    }

    /// Reads this word, and gives its place.
    pub fn word(&mut self, word: &[u8]) -> Result<Place, Unread>
        ensures { Answers (AWord word.now) any self.old self.new result }
    {
        if !self.is_word(word) {
            return Err(Unread::Refused);
        }
        let place = self.next().place;
        self.advance()?;
        Ok(place)
    }

    /// Reads a name, and gives its place with it.
    pub fn name(&mut self) -> Result<(Name, Place), Unread>
        ensures { Answers AName any self.old self.new result }
    {
        let token = self.next();
        let Symbol::Name(name) = &token.symbol else {
            return Err(Unread::Refused);
        };
        let name = name.name();
        let place = token.place;
        self.advance()?;
        Ok((name, place))
    }

    /// Reads a number.
    pub fn number(&mut self) -> Result<u64, Unread>
        ensures { Answers ANumber any self.old self.new result }
    {
        let Symbol::Number(number) = &self.next().symbol else {
            return Err(Unread::Refused);
        };
        let number = *number;
        self.advance()?;
        Ok(number)
    }
}

/// Finds the token that the lexer comes to next. It is written in its place, since it is large.
fn find<'a>(job: &'a [u8], lexer: &mut Lexer<'_>, at: usize, found: &mut Found<'a>)
    requires begun { lexer.now ≡ record { text = job.now; at = at } }
    requires inside { at ≤ length job.now }
    ensures tok { found.new.tok ≡ tok_or_end job.now (next_token job.now at) }
    ensures stop { found.new.stop ≡ stop_of (next_token job.now at) at }
    ensures within { found.new.stop ≤ length job.now }
    ensures refusal { found.new.refusal ≡ refusal_in (next_token job.now at) }
    ensures moved { lexer.new ≡ record { text = job.now; at = found.new.stop } }
{
    match lexer.next() {
        Ok(token) => {
            found.tok = tok(job, &token);
            found.stop = token.stop;
            found.refusal = None;
        }
        Err(refusal) => {
            found.tok = Tok {
                symbol: Symbol::End,
                place: refusal.place,
            };
            found.stop = at;
            found.refusal = Some(refusal);
        }
    }
}
