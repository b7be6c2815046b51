//! Tests of a region's words, closed regions, the check of words and images.
#![tactic(auto)]

#[cfg(test)]
mod check_tests;
#[cfg(test)]
mod file_tests;
#[cfg(test)]
mod frozen_tests;
#[cfg(test)]
mod word_tests;
