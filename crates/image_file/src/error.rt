// Why bytes are no image.
use cas_model::Digest;
use region_check::Flaw;
use std::alloc::AllocError;
use thiserror::Error;

/// Why bytes are no image of a closed region. The first of these that applies is answered: `Long`, `Short`, `Ragged`,
/// `Sum`, `Version`, `Flaw`. The refusals are this project's own.
#[derive(Clone, Copy, Debug, PartialEq, Eq, Drop, Error)]
pub enum ImageError {
    /// There are fewer bytes than an empty region's image has, 4,192.
    #[error("too short")]
    Short,
    /// The number of bytes is no multiple of eight.
    #[error("ragged")]
    Ragged,
    /// The last 32 bytes are not the sum of those before them.
    #[error("the sum differs")]
    Sum {
        /// The last 32 bytes.
        kept: Digest,
        /// The SHA-256 of the bytes before them.
        found: Digest,
    },
    /// The version word is this one, and not 1.
    #[error("version {0}")]
    Version(u64),
    /// The words are not those of a closed region.
    #[error("flaw at {}", .0.place)]
    Flaw(Flaw),
    /// There was no memory.
    #[error("no memory")]
    Memory,
    /// There are more bytes than the image of the largest region has, 536,870,944.
    #[error("too long")]
    Long,
}

impl From<AllocError> for ImageError {
    ghost use Rattle.std.specs.Prelude.{◌≡◌};
    ghost use Rattle.image_file.specs.declared.error.ImageError.TheVariants.{Memory};

    ghost from_gives = { λ _ e. e ≡ Memory };

    fn from(_: AllocError) -> Self {
        ImageError::Memory
    }
}
