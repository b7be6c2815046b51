// What is wrong with words, by name and place.
ghost use Rattle.std.specs.Prelude.{◌≡◌};
ghost use Rattle.region_check.specs.declared.flaw.CheckError.TheVariants.{Memory};

use cas_model::Digest;
use std::alloc::AllocError;
use thiserror::Error;

/// What is wrong. docs/REGION.md has the table of flaws, with the order in which they are looked for.
#[derive(Clone, Copy, Debug, PartialEq, Eq)]
pub enum FlawKind {
    /// A word of the header is not as it must be, or there are too few words.
    Header,
    /// A slot's word says nothing.
    Slot,
    /// A slot names a record or subtrie outside of the arena, or an object's cell a content outside.
    Range,
    /// A word lies in two blocks.
    Overlap,
    /// A subtrie lies too deep, or a record's digest does not lead to its slot.
    Path,
    /// A content is past the limits, or ends past the last word.
    Length,
    /// The bytes after the last one of a content are not 0.
    Padding,
    /// A reference is not the record of a present object.
    Reference,
    /// A reference's content does not lie lower.
    Order,
    /// A content has another digest than its record.
    DigestDiffers {
        /// The record's digest.
        kept: Digest,
        /// The content's.
        found: Digest,
    },
    /// An action's value is not the record of a present object.
    ActionValue,
    /// There are more words than the counter tells.
    PastCounter,
}

/// A flaw of words: what is wrong, and the word at which it is.
#[derive(Clone, Copy, Debug, PartialEq, Eq)]
pub struct Flaw {
    pub place: u64,
    pub kind: FlawKind,
}

/// Why words are no closed region.
#[derive(Clone, Copy, Debug, PartialEq, Eq, Drop, Error)]
pub enum CheckError {
    /// They have a flaw. It is the first.
    #[error("flaw at {}", .0.place)]
    Flaw(Flaw),
    /// There is no memory.
    #[error("no memory")]
    Memory,
}

impl From<AllocError> for CheckError {
    ghost from_gives = { λ _ e. e ≡ Memory };

    fn from(_error: AllocError) -> CheckError {
        CheckError::Memory
    }
}
