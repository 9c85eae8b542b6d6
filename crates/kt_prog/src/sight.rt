// The names in sight at a place of the text.

use crate::names::Name;
use kt_law::Mode;

/// What a name in sight is.
#[derive(Clone, Copy, Debug, PartialEq, Eq)]
pub enum Kind {
    /// An int parameter or a `for` name.
    Number,
    /// A `let` name.
    Variable,
    /// The index of a loop.
    Index,
    /// A single object.
    One(Mode),
    /// A range of objects.
    Many(Mode),
}

/// A name in sight.
#[derive(Debug, Drop)]
pub struct Known {
    pub name: Name,
    pub kind: Kind,
}
