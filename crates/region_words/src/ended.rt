// The history at closing, which exists in proofs alone.
ghost use Rattle.std.specs.Prelude.{List};
ghost use base.Fml.{ftrue};
ghost use Rattle.cas_history.specs.declared.event.Event.{Event};
ghost use Rattle.region_words.specs.Closing.{Ends, StandFor};
ghost use Rattle.region_words.specs.Rule.{origin};

use crate::region::{Region, RegionSeat};
use std::marker::{Model, PhantomData};
use std::snapshot::Snapshot;

// A region and its last seat as they were, and the words that were kept.
#[derive(Drop)]
pub(crate) struct Shut {
    pub(crate) region: Snapshot<Region>,
    pub(crate) seat: Snapshot<RegionSeat>,
    pub(crate) words: Vec<u64>,
}

/// The history of a region when it was closed. It takes no bytes: contracts alone see its events, the newest first.
#[derive(Drop)]
pub struct Ended {
    marker: PhantomData<u64>,
    pub ghost log: { List Event },
}

impl Model for Ended {
    ghost also_owns = { λ _. ftrue };
}

impl Ended {
    // The history that the closing told of.
    pub(crate) fn of(shut: &Shut) -> Ended
        requires { (log : List Event) × Ends (origin shut.now.region.value.key) shut.now.seat.value.view log × StandFor (origin shut.now.region.value.key) log shut.now.words.items }
        ensures { Ends (origin shut.now.region.value.key) shut.now.seat.value.view result.log × StandFor (origin shut.now.region.value.key) result.log shut.now.words.items }
    {
        let _ = shut;
        Ended {
            marker: PhantomData,
        }
    }
}
