//! The words of a region: what they hold, and words built from contents.
#![tactic(auto)]

mod building;
mod insertion;
mod lookup;
mod slot;
mod word;

pub use building::{build, empty_words};
pub use cas_model::{content_length, data_word, head_word, split_head};
pub use insertion::BuildError;
pub use lookup::{look, record_digest, root_of};
pub use slot::Slot;
pub use word::{digest_of_words, digest_words, index_at};
