// Why a line is not read.
use crate::LineKind;
use std::alloc::{AllocError, AllocFailed};

/// Why a line is not read.
#[derive(Clone, Copy, Debug, PartialEq, Eq)]
pub enum Refusal {
    /// It has no reading, for this reason.
    Kind(LineKind),
    /// There was no memory.
    Memory,
}

impl From<LineKind> for Refusal {
    ghost use Rattle.std.specs.Prelude.{◌≡◌};
    ghost use Rattle.cas_script.specs.declared.refusal.Refusal.TheVariants.{Kind};

    ghost from_gives = { λ kind e. e ≡ Kind kind };

    fn from(kind: LineKind) -> Self {
        Refusal::Kind(kind)
    }
}

impl From<AllocError> for Refusal {
    ghost use Rattle.std.specs.Prelude.{◌≡◌};
    ghost use Rattle.cas_script.specs.declared.refusal.Refusal.TheVariants.{Memory};

    ghost from_gives = { λ _ e. e ≡ Memory };

    fn from(_: AllocError) -> Self {
        Refusal::Memory
    }
}

impl<T: Drop> From<AllocFailed<T>> for Refusal {
    ghost use Rattle.std.specs.Prelude.{◌≡◌};
    ghost use Rattle.cas_script.specs.declared.refusal.Refusal.TheVariants.{Memory};

    ghost from_gives = { λ _ e. e ≡ Memory };

    fn from(_: AllocFailed<T>) -> Self {
        Refusal::Memory
    }
}
