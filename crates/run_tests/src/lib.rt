//! Tests of the top call: words, commands, batches, and what fails.
#![tactic(auto)]

#[cfg(test)]
mod batch_tests;
#[cfg(test)]
mod command_tests;
#[cfg(test)]
mod limit_tests;
