//! The boundary between the structure of a store and the words of a region: a port, whose calls are events of one
//! history.
#![tactic(auto)]

mod block;
mod port;
mod steps;

pub use block::{Block, Bound, Filled, OpenBlock, PortError, Written};
pub use port::CellPort;
pub use steps::Steps;
