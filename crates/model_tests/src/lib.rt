//! Tests of objects, ids and of the definitions of runs.
#![tactic(auto)]

#[cfg(test)]
mod id_tests;
#[cfg(test)]
mod replay_tests;
