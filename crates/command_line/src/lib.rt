//! The command line of the store: the words of a command, and what they ask for.
#![tactic(auto)]

mod command;
mod refusal;
mod words;

pub use command::{Command, DEFAULT_SIZE, Options, Request, Shows, Task};
pub use refusal::{UsageKind, WordsError};
pub use words::read_words;
