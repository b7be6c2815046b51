//! Whole trees of objects from an upstream into a primary, over any port.
#![tactic(auto)]

mod error;
mod seeking;
mod walking;
mod writing;

pub use error::FaultInError;
pub use walking::fault_in;
