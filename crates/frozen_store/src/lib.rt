//! A closed region: reading it, and its contents.
#![tactic(auto)]

mod frozen;
mod listing;
mod reading;
mod tally;
mod walk;

pub use frozen::{Counts, Frozen};
