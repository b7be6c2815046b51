// The rule that holds of the words and the views between any two steps.
use crate::view::SeatView;
use atomic_table::TableRule;
use frozen_store::Frozen;
use std::snapshot::Snapshot;

/// What a region was made of. It takes no bytes.
#[derive(Drop)]
pub struct Key {
    /// The closed region that its words began with.
    pub primary: Snapshot<Frozen>,
    /// The closed region below it, where there is one.
    pub upstream: Option<Snapshot<Frozen>>,
}

/// The rule of a region's words.
pub struct RegionRule;

impl TableRule<(), SeatView, Key> for RegionRule {
    ghost use Rattle.region_words.specs.Rule.{Holds, first_view};

    ghost holds = { Holds };

    ghost first = { λ _. first_view };
}
