//! The rule over all words and views.

use crate::views::View;
use atomic_table::TableRule;

/// The rule of a run. Its key is the words that the table was made of.
pub struct KaapiRule;

impl TableRule<(), View, Vec<u64>> for KaapiRule {
    ghost use Rattle.kt_rule.specs.Rule.{Holds};
    ghost use Rattle.kt_rule.specs.Views.{blank_view};

    ghost holds = { λ k. Holds k.items };

    ghost first = { λ _. blank_view };
}
