//! Objects, digests and ids of a content store; calls, replies and notes of its sessions; the tables that a
//! region's words stand for; and the definitions of states and steps that every layer cites.
#![tactic(auto)]

mod call;
mod content;
mod contents;
mod decimal;
mod digest;
mod id;
mod note;
mod object;
mod place;
mod tables;
mod upstream;

pub use call::{Call, Reply, Who};
pub use content::{content_length, data_word, head_word, split_head};
pub use contents::{Contents, Pair};
pub use decimal::number_within;
pub use digest::Digest;
pub use id::{Id, IdError, ids_are_read_back};
pub use note::{Note, Stage};
pub use object::{Data, Object, Refs};
pub use place::{Full, Place, Space};
pub use tables::{Cell, Content, Record, Words};
pub use upstream::{NoUpstream, Upstream};
