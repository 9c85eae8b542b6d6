// An answer made whole, before any of it is written.
ghost use Rattle.std.specs.Prelude.{◌≡◌};

use crate::exits::Exit;
use std::marker::Model;

/// An exit and the bytes to be written.
#[derive(Drop)]
pub struct Reply {
    exit: Exit,
    text: Vec<u8>,
}

impl Model for Reply {
    ghost use Rattle.kt_io.specs.Ending.{Said};
    ghost use Rattle.kaapi.specs.declared.exits.Exit.{Exit};

    ghost Value = { Said Exit };

    ghost view = { λ r. record { exit = r.exit; text = r.text.items } };
}

impl Reply {
    pub fn new(exit: Exit, text: Vec<u8>) -> Self
        ensures { result ≡ record { exit = exit; text = text.items } }
    {
        Reply { exit, text }
    }

    pub fn exit(&self) -> Exit
        ensures { result ≡ self.now.exit }
    {
        self.exit
    }

    pub fn text(&self) -> &[u8]
        ensures { result.now ≡ self.now.text }
    {
        &self.text
    }
}
