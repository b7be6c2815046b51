//! The check of words that come from strangers: a closed region, or the first flaw by name and place.
#![tactic(auto)]

mod cells;
mod checking;
mod contents;
mod flaw;
mod header;
mod least;
mod naming;
mod paths;
mod reach;
mod roles;
mod slot_flaws;
mod sum;
mod sweep;

pub use checking::check;
pub use flaw::{CheckError, Flaw, FlawKind};
