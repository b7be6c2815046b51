//! Tests of the top call: sequences of commands over one folder.
#![tactic(auto)]

#[cfg(test)]
mod generation_tests;
#[cfg(test)]
mod store_tests;
