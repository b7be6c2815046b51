//! Keys and their values over any port: the first value of a key stays, and the value is an object's digest.
#![tactic(auto)]

mod getting;
mod keeping;
mod putting;

pub use getting::{find_key, get};
pub use putting::{bring, put};
