//! The fields of a record, of which [`crate::FIELDS`] is the number.

use crate::FIELDS;
use kt_law::{ACCESSES, INTS};

/// The state word.
pub const STATE: u32 = 0;

/// The head word.
pub const HEAD: u32 = 1;

/// 0 for `main`, and else 1 plus the number of the parent's record.
pub const PARENT: u32 = 2;

/// A pair: the loop's length, and its first position once it began.
pub const EXTENT: u32 = 3;

/// How many indexes of the loop are not retired.
pub const UNRETIRED: u32 = 4;

/// The first of the ints.
pub const FIRST_INT: u32 = 5;

/// The first of the access words.
pub const FIRST_ACCESS: u32 = 13;

const _: () = prove!(FIRST_INT + INTS as u32 == FIRST_ACCESS);

const _: () = prove!(FIRST_ACCESS + ACCESSES as u32 == FIELDS);
