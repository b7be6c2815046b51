//! Tests of running regions: claims, seats, closing, and two threads at once.
#![tactic(auto)]

#[cfg(test)]
mod claim_tests;
#[cfg(test)]
mod closing_tests;
#[cfg(test)]
mod seat_tests;
#[cfg(test)]
mod testing;
#[cfg(test)]
mod thread_tests;
