// Names.
ghost use Rattle.std.specs.Prelude.{◌≡◌};
ghost use Rattle.std.specs.Str.{bytes_eq};
ghost use Rattle.kt_prog.specs.Names.{IsName};

use kt_law::WORD_BYTES;
use std::marker::Model;
use std::str;

/// A name of 1 to [`WORD_BYTES`] ASCII bytes. Contracts see it as the list of its bytes.
#[derive(Debug, Drop)]
pub struct Name {
    bytes: [u8; WORD_BYTES],
    len: u8,
}

impl Model for Name {
    ghost use Rattle.std.specs.Prelude.{ℕ, ◌≤◌, List, take};
    ghost use Rattle.kt_law.specs.declared.limits.TheConstants.{WORD_BYTES};
    ghost use Rattle.kt_prog.specs.Names.{IsName};

    ghost Value = { List ℕ };

    ghost view = { λ n. take n.len n.bytes };

    ghost invariant = { λ n. (n.len ≤ WORD_BYTES) × IsName (take n.len n.bytes) };
}

impl Name {
    /// The name that these bytes are.
    pub fn new(text: &[u8]) -> Name
        requires { IsName text.now }
        ensures { result ≡ text.now }
    {
        let mut bytes = [0; WORD_BYTES];
        let len = text.len();
        bytes[..len].copy_from_slice(text);
        Name {
            bytes,
            len: len as u8,
        }
    }

    /// Its bytes, for comparing and copying.
    pub fn as_bytes(&self) -> &[u8]
        ensures bytes { result.now ≡ self.now }
        ensures name { IsName self.now }
    {
        &self.bytes[..usize::from(self.len)]
    }

    /// Its text, for printing and for comparing with words.
    pub fn as_str(&self) -> &str
        ensures { result.now ≡ self.now }
    {
        str::from_utf8(self.as_bytes()).unwrap()
    }

    /// The same name once more, which takes no memory.
    pub fn copied(&self) -> Name
        ensures { result ≡ self.now }
    {
        Name {
            bytes: self.bytes,
            len: self.len,
        }
    }

    /// Whether the two are the same name.
    pub fn is(&self, other: &Name) -> bool
        ensures { result ≡ bytes_eq self.now other.now }
    {
        self.as_bytes() == other.as_bytes()
    }
}
