//! An executable twin of the definitions of runs: it plays events one by one, and tells tables, histories and conduct.
#![tactic(auto)]

mod replay;

pub use replay::Replay;
