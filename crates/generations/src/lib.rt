//! The generations of a store: the object store and the action cache of a primary over its upstream, and the folder
//! that keeps them.
#![tactic(auto)]

mod chain;
mod laws;
mod generation_names;
mod opening;
mod pruning;
mod rotating;
mod saving;

pub use laws::{
    opening_reads_the_chain, pruning_keeps_the_chain, rotating_lowers_the_primary,
    saving_keeps_the_upstream,
};
pub use generation_names::{name_of, number_of};
pub use opening::{OpenError, Opened, open_folder};
pub use pruning::prune;
pub use rotating::{needs_rotation, rotate};
pub use saving::{SaveError, save};
pub use unified_cas::Unified;
