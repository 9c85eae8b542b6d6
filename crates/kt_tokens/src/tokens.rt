// Tokens as the grammar sees them.
ghost use Rattle.std.specs.Prelude.{◌≡◌, ◌↔◌, IsTrue};
ghost use Rattle.kt_prog.specs.Names.{IsName};
ghost use Rattle.kt_tokens.specs.declared.tokens.Mark.TheVariants.{Data};
ghost use Rattle.kt_tokens.specs.declared.tokens.Symbol.TheVariants as S;

use kt_law::Place;
use kt_prog::Name;
use std::marker::Model;

/// Signs and reserved words.
#[derive(Clone, Copy, Debug, PartialEq, Eq)]
pub enum Mark {
    Object,
    Task,
    Loop,
    Main,
    Let,
    If,
    Else,
    For,
    In,
    Fork,
    Data,
    BraceOpen,
    BraceClose,
    ParenOpen,
    ParenClose,
    SquareOpen,
    SquareClose,
    Comma,
    Semicolon,
    /// The sign `=`.
    Becomes,
    /// The sign `==`.
    Eq,
    Ne,
    Lt,
    Le,
    Gt,
    Ge,
    Plus,
    Minus,
    Star,
    Slash,
    Percent,
    /// The sign `..`.
    Dots,
}

/// A word of a job that is a name. Contracts see it as the list of its bytes.
#[derive(Debug, Drop)]
pub struct Word<'a> {
    text: &'a [u8],
}

impl<'a> Model for Word<'a> {
    ghost use Rattle.std.specs.Prelude.{ℕ, List};
    ghost use Rattle.kt_prog.specs.Names.{IsName};

    ghost Value = { List ℕ };

    ghost view = { λ w. w.text.now };

    ghost invariant = { λ w. IsName w.text.now };
}

impl<'a> Word<'a> {
    /// The name that these bytes are.
    pub fn new(text: &'a [u8]) -> Self
        requires { IsName text.now }
        ensures { result ≡ text.now }
    {
        Word { text }
    }

    /// Its bytes, for comparing.
    pub fn as_bytes(&self) -> &'a [u8]
        ensures { result.now ≡ self.now }
    {
        self.text
    }

    /// The name, apart from the job.
    pub fn name(&self) -> Name
        ensures { result ≡ self.now }
    {
        Name::new(self.text)
    }
}

/// What a token says.
#[derive(Debug, Drop)]
pub enum Symbol<'a> {
    Mark(Mark),
    /// A word that is not reserved.
    Name(Word<'a>),
    Number(u64),
    /// The end of the text.
    End,
}

impl<'a> Symbol<'a> {
    /// Whether it is the word `data`, behind which no token is read.
    pub fn is_data(&self) -> bool
        ensures { IsTrue result ↔ (self.now ≡ S.Mark Data) }
    {
        matches!(self, Symbol::Mark(Mark::Data))
    }

    pub fn is_end(&self) -> bool
        ensures { IsTrue result ↔ (self.now ≡ S.End) }
    {
        matches!(self, Symbol::End)
    }
}

/// A token with the place of its first byte.
#[derive(Debug, Drop)]
pub struct Tok<'a> {
    pub symbol: Symbol<'a>,
    pub place: Place,
}
