// A generation's file, written under the folder's lock.
ghost use Rattle.std.specs.Prelude.{◌≡◌, true};
ghost use Rattle.generations.specs.GenerationNames.{generation_name};
ghost use Rattle.generations.specs.Saved.{ChangedOnce, Saves};

use crate::generation_names::name_of;
use cas_outside::{Folder, FolderError};
use std::alloc::{AllocError, Global};
use thiserror::Error;

/// Why a change of a folder was not made, or maybe not whole.
#[derive(Clone, Copy, Debug, PartialEq, Eq, Drop, Error)]
pub enum SaveError {
    /// The folder failed, and its count of faults rose in this call.
    #[error("the folder failed")]
    FolderFault,
    /// There was no memory.
    #[error("no memory")]
    Memory,
}

impl From<FolderError> for SaveError {
    ghost use Rattle.std.specs.Prelude.{◌≡◌};
    ghost use Rattle.generations.specs.Saved.{save_error_of};

    ghost from_gives = { λ error result. result ≡ save_error_of error };

    fn from(error: FolderError) -> Self {
        match error {
            FolderError::Failed => SaveError::FolderFault,
            FolderError::Memory => SaveError::Memory,
        }
    }
}

impl From<AllocError> for SaveError {
    ghost use Rattle.std.specs.Prelude.{◌≡◌};
    ghost use Rattle.generations.specs.declared.saving.SaveError.TheVariants.{Memory};

    ghost from_gives = { λ _ error. error ≡ Memory };

    fn from(_: AllocError) -> Self {
        SaveError::Memory
    }
}

/// Writes the image of a generation to its file, whether it was there or not. After `FolderFault` the file has its old
/// bytes or the new ones, after `Memory` its old ones. No other file changes. The folder counts one change, and
/// after `Memory` one at most.
pub fn save<F: Folder>(
    alloc: Global,
    folder: &mut F,
    number: u32,
    image: &[u8],
) -> Result<(), SaveError>
    requires { (F.view folder.old).locked ≡ true }
    ensures saves { Saves (generation_name number) image.now (F.view folder.old) (F.view folder.new) result }
    ensures once { ChangedOnce (F.view folder.old) (F.view folder.new) result }
{
    let name = name_of(alloc, number)?;
    folder.replace(&name, image)?;
    Ok(())
}
