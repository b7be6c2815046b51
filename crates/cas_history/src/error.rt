// Why a run is not replayed.
ghost use Rattle.std.specs.Prelude.{◌≡◌};

use std::alloc::{AllocError, AllocFailed};
use thiserror::Error;

/// Why a run is not replayed.
#[derive(Clone, Copy, Debug, PartialEq, Eq, Drop, Error)]
pub enum ReplayError {
    /// No memory is left.
    #[error("no memory")]
    Memory,
    /// A claim would move the counter past the greatest number of 64 bits.
    #[error("a claim moves the counter too far")]
    TooFar,
    /// The event may not happen after those before it, or its fill is not lawful for the upstream.
    #[error("the event may not happen here")]
    Unlawful,
    /// What the event decides names the record at this place, and there is none. No run whose sessions have conduct
    /// has this.
    #[error("no record is at word {0}")]
    Unbound(u64),
}

impl From<AllocError> for ReplayError {
    ghost use Rattle.std.specs.Prelude.{◌≡◌};
    ghost use Rattle.cas_history.specs.declared.error.ReplayError.TheVariants.{Memory};

    ghost from_gives = { λ _ e. e ≡ Memory };

    fn from(_: AllocError) -> Self {
        ReplayError::Memory
    }
}

impl<T: Drop> From<AllocFailed<T>> for ReplayError {
    ghost use Rattle.std.specs.Prelude.{◌≡◌};
    ghost use Rattle.cas_history.specs.declared.error.ReplayError.TheVariants.{Memory};

    ghost from_gives = { λ _ e. e ≡ Memory };

    fn from(_: AllocFailed<T>) -> Self {
        ReplayError::Memory
    }
}
