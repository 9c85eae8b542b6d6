// What is read is put on the heap. Want of memory ends the reading.
ghost use Rattle.std.specs.Prelude.{◌≡◌, ◌≤◌, [], ◌∷◌, ◌++◌, drop, IfOk, length, MatchResult, OnOk, take};
ghost use Rattle.kt_tokens.specs.declared.source.Unread.TheVariants.{NoMemory};

use kt_tokens::Unread;
use sqlite_items::Boxed;
use std::alloc::{AllocError, Global};
use std::mem;

/// Puts a part on the heap as soon as it is read, so that the readers hand on no more than where it is.
pub(crate) fn boxed<T: Drop>(alloc: Global, part: T) -> Result<Boxed<T>, Unread>
    ensures { MatchResult result (λ x. x ≡ part) (λ why. why ≡ NoMemory) }
{
    Ok(Boxed::new(alloc, part)?)
}

/// Adds a part behind others. Their room doubles from one on, since most lists of a text are short, and the parts are large.
pub(crate) fn add<T: Drop>(parts: &mut Vec<T>, part: T) -> Result<(), AllocError>
    ensures { OnOk result (parts.new.items ≡ parts.old.items ++ part ∷ []) }
{
    let length = parts.len();
    if length == parts.capacity() {
        parts.reserve_exact(length.max(1))?;
    }
    parts.push_reserved(part);
    Ok(())
}

/// How many parts are handed over in the list that they were read into, where they fill it. Fewer are copied.
const LONG: usize = 1_024;

/// Takes the parts from this place on out of a list. Their own list has room for just their number, but where they are
/// many, and fill the list that they were read into.
pub(crate) fn taken<T: Drop>(
    alloc: Global,
    parts: &mut Vec<T>,
    from: usize,
) -> Result<Vec<T>, AllocError>
    requires { from ≤ length parts.old.items }
    ensures taken { IfOk result (λ own. own.items ≡ drop from parts.old.items) }
    ensures kept { OnOk result (parts.new.items ≡ take from parts.old.items) }
{
    if from == 0 && parts.len() >= LONG.max(parts.capacity() / 2) {
        return Ok(mem::replace(parts, Vec::new(alloc)));
    }
    parts.split_off(from)
}
