//! Tests of the outside, and of the words of commands.
#![tactic(auto)]

#[cfg(test)]
mod folder_tests;
#[cfg(test)]
mod stream_tests;
#[cfg(test)]
mod word_tests;
