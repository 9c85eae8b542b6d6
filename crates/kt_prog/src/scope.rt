// What the names of a body stand for while it runs.

use crate::names::Name;
use kt_law::{ACCESSES, INTS, LOCALS};

/// Names that stand for something at one place: the parameters, an index, and `let` and `for` names.
pub const NAMES: usize = INTS + ACCESSES + 1 + LOCALS as usize;

/// A number, an object, or the objects from the first number up to the second, which is not included.
#[derive(Clone, Copy, Debug, PartialEq, Eq)]
pub enum Bound {
    Number(u64),
    One(u32),
    Many(u32, u32),
}

/// A name with what it stands for.
#[derive(Debug, Drop)]
pub struct Local {
    pub name: Name,
    pub bound: Bound,
}

// An array of locals is filled with this one where it has none yet.
impl Default for Local {
    fn default() -> Local {
        Local {
            name: Name::new(b"_"),
            bound: Bound::Number(0),
        }
    }
}
