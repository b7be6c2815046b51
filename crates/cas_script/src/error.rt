// Why a text is no script.
use std::alloc::AllocError;
use thiserror::Error;

/// Why a line has no reading. Where more than one applies, the first in this order is answered: `BadVerb`,
/// `TooManySessions`, `NoSession`, `TooManyLines`, `BadArguments`, `TooManyRefs`, and then, by the arguments from left to
/// right, `BadId`, `BadReference` or `BadData`. The kinds are this project's own.
#[derive(Clone, Copy, Debug, PartialEq, Eq)]
pub enum LineKind {
    /// The first token is none of the six words.
    BadVerb,
    /// The number of tokens is not the word's.
    BadArguments,
    /// An argument is none of the forms of an id, a reference or a key.
    BadId,
    /// An argument is none of the forms of data.
    BadData,
    /// A `%k` is not the number of a line before this one of its session that stores an object.
    BadReference,
    /// The line stands before the first `session`.
    NoSession,
    /// A session after the 64th.
    TooManySessions,
    /// A line after the 65,536th of its session.
    TooManyLines,
    /// More than 65,535 references.
    TooManyRefs,
}

/// Why a text is no script.
#[derive(Clone, Copy, Debug, PartialEq, Eq, Drop, Error)]
pub enum ScriptError {
    /// The line with this number, counted from 1 over all lines of the text, is the first that has no reading.
    #[error("line {0} has no reading: {1:?}")]
    Line(u32, LineKind),
    /// The text has more than 16,777,216 bytes.
    #[error("the text is too long")]
    TooLong,
    /// There was no memory.
    #[error("no memory")]
    Memory,
}

impl From<AllocError> for ScriptError {
    ghost use Rattle.std.specs.Prelude.{◌≡◌};
    ghost use Rattle.cas_script.specs.declared.error.ScriptError.TheVariants.{Memory};

    ghost from_gives = { λ _ e. e ≡ Memory };

    fn from(_: AllocError) -> Self {
        ScriptError::Memory
    }
}
