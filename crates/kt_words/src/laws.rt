//! Laws of the words of a run. The functions do nothing; their contracts are the laws.
ghost use Rattle.kt_words.specs.Laws.{PlacesDiffer, PlacesAreInside, SetIsRead, OthersStay, FieldsAreExact, IsPacking, ZeroIsEmpty};
ghost use Rattle.kt_words.specs.Words.{IsStateWord, packed_state, IsHeadWord, packed_head, IsPair, packed_pair, IsPost, packed_post, IsAccess, packed_access};

/// No two words of a run stand at one place.
pub fn places_differ()
    ensures { PlacesDiffer }
{}

/// Each word of a run stands within the table.
pub fn places_are_inside()
    ensures { PlacesAreInside }
{}

/// What is set at a place is read there.
pub fn set_is_read()
    ensures { SetIsRead }
{}

/// What is set at a place changes no other.
pub fn others_stay()
    ensures { OthersStay }
{}

/// A word has the fields from which it is packed, and no others.
pub fn fields_are_exact()
    ensures { FieldsAreExact }
{}

/// State words are a packing: they fit 64 bits, differ where the states do, and are found in a table where they were set.
pub fn state_words()
    ensures { IsPacking IsStateWord packed_state }
{}

/// So are head words.
pub fn head_words()
    ensures { IsPacking IsHeadWord packed_head }
{}

/// So are pairs.
pub fn pairs()
    ensures { IsPacking IsPair packed_pair }
{}

/// So are post words.
pub fn post_words()
    ensures { IsPacking IsPost packed_post }
{}

/// So are access words.
pub fn access_words()
    ensures { IsPacking IsAccess packed_access }
{}

/// The state word 0 is that of a record without a task, and no task has it.
pub fn zero_is_empty()
    ensures { ZeroIsEmpty }
{}
