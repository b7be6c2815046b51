//! Tests of scripts, of workloads, and of sessions that run in turn with their output.
#![tactic(auto)]

#[cfg(test)]
mod script_tests;
#[cfg(test)]
mod turn_tests;
#[cfg(test)]
mod workload_tests;
