ghost use Rattle.kt_rights.specs.Example.{adding};

use crate::{Source, laws};

/// Two calls that each add to one element.
struct Adders;

impl Source for Adders {
    ghost plan = { adding };
}

#[test]
fn laws_hold_of_a_program() {
    laws::adding_obeys();
    laws::tables_give_laws::<Adders>();
    laws::tables_give_apart_laws::<Adders>();
    laws::accesses_free_the_order::<Adders>();
    laws::side_by_side_agree::<Adders>();
    laws::in_line_agree::<Adders>();
    laws::indexes_are_apart::<Adders>();
}
