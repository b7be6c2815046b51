//! Tests of the object store and the action cache over two generations, and of the folder that keeps them.
#![tactic(auto)]

#[cfg(test)]
mod folder_tests;
#[cfg(test)]
mod unified_tests;
