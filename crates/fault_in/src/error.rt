// Why a tree is not brought in.
ghost use Rattle.std.specs.Prelude.{◌≡◌};

use cas_model::Full;
use cas_port::PortError;
use std::alloc::AllocError;
use thiserror::Error;

/// Why a tree is not brought in. The kinds are this project's own.
#[derive(Clone, Copy, Debug, PartialEq, Eq, Drop, Error)]
pub enum FaultInError {
    /// A claim was refused, with the numbers that it found.
    #[error("{0}")]
    Full(Full),
    /// The port wanted memory, or the list of open objects did.
    #[error("no memory")]
    Memory,
}

impl From<AllocError> for FaultInError {
    ghost use Rattle.std.specs.Prelude.{◌≡◌};
    ghost use Rattle.fault_in.specs.declared.error.FaultInError.TheVariants.{Memory};

    ghost from_gives = { λ _ e. e ≡ Memory };

    fn from(_: AllocError) -> Self {
        FaultInError::Memory
    }
}

impl From<PortError> for FaultInError {
    ghost use Rattle.std.specs.Prelude.{◌≡◌};
    ghost use Rattle.fault_in.specs.Errors.{fault_in_error};

    ghost from_gives = { λ error e. e ≡ fault_in_error error };

    fn from(error: PortError) -> Self {
        match error {
            PortError::Full(full) => FaultInError::Full(full),
            PortError::Memory => FaultInError::Memory,
        }
    }
}
