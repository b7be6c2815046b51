//! Blocks of words, claimed from a running region's counter.
#![tactic(auto)]

mod claims;

pub use claims::{claim, claim_for_bind};
