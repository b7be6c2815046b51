//! The boundary between the structure of a store and the words of a region: a port, whose calls are events of one
//! history.
#![tactic(auto)]

mod depth;
mod digest_words;
mod holdings;
mod index;
mod moves;
mod pairs;
mod parts;
mod plain;
mod searches;
mod shown;
mod tables;

pub use cas_port::{Block, Bound, CellPort, Filled, OpenBlock, PortError, Steps, Written};
pub use plain::{Events, PlainPort};
