//! The language of scripts: the sessions of a batch, the text that they come as, the script of one call, and workloads.
#![tactic(auto)]

mod argument;
mod cut;
mod error;
mod line;
mod number_text;
mod parse;
mod parser;
mod refusal;
mod script;
mod single;
mod verb;
mod workloads;

pub use error::{LineKind, ScriptError};
pub use number_text::push_number;
pub use script::{Line, Lines, Script, Session, Sessions};
pub use workloads::workload;
