// Why words are no command.
use cas_model::IdError;
use thiserror::Error;

/// Why words are no command. The first of these that applies is told. The kinds are this project's own.
#[derive(Clone, Copy, Debug, PartialEq, Eq, Drop, Error)]
pub enum UsageKind {
    /// They do not read as one.
    #[error("the words do not read as a command")]
    Words,
    /// The command does not take so many operands.
    #[error("the command does not take {0} operands")]
    Operands(u64),
    /// The operand at this index, counted from 0, is the first that does not read.
    #[error("operand {0}: {1}")]
    BadOperand(u64, IdError),
}

/// Why words are refused.
#[derive(Clone, Copy, Debug, PartialEq, Eq, Drop, Error)]
pub enum WordsError {
    /// They are no command.
    #[error("{0}")]
    Usage(UsageKind),
    /// The object would have so many references, and has at most 65,535.
    #[error("{0} references are too many")]
    TooManyReferences(u64),
    /// There was no memory.
    #[error("no memory")]
    Memory,
}
