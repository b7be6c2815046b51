//! Tests of ports, of the store of objects and the action cache, and of whole trees, over the plain port.
#![tactic(auto)]

#[cfg(test)]
mod action_tests;
#[cfg(test)]
mod object_tests;
#[cfg(test)]
mod plain_tests;
#[cfg(test)]
mod testing;
#[cfg(test)]
mod tree_tests;
