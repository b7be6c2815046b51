// Why an object is not stored.
ghost use Rattle.std.specs.Prelude.{◌≡◌};

use cas_model::{Digest, Full};
use cas_port::PortError;
use std::alloc::AllocError;
use thiserror::Error;

/// Why an object is not stored. The kinds are this project's own.
#[derive(Clone, Copy, Debug, PartialEq, Eq, Drop, Error)]
pub enum StoreError {
    /// The reference at this index, counted from 0, is the first that the primary lacks.
    #[error("reference {index} is to an object that is not there")]
    Dangling { index: u32, digest: Digest },
    /// A claim was refused, with the numbers that it found.
    #[error("{0}")]
    Full(Full),
    /// The port wanted memory.
    #[error("no memory")]
    Memory,
}

impl From<AllocError> for StoreError {
    ghost use Rattle.std.specs.Prelude.{◌≡◌};
    ghost use Rattle.graph_db.specs.declared.error.StoreError.TheVariants.{Memory};

    ghost from_gives = { λ _ e. e ≡ Memory };

    fn from(_: AllocError) -> Self {
        StoreError::Memory
    }
}

impl From<PortError> for StoreError {
    ghost use Rattle.std.specs.Prelude.{◌≡◌};
    ghost use Rattle.graph_db.specs.Errors.{store_error};

    ghost from_gives = { λ error e. e ≡ store_error error };

    fn from(error: PortError) -> Self {
        match error {
            PortError::Full(full) => StoreError::Full(full),
            PortError::Memory => StoreError::Memory,
        }
    }
}
