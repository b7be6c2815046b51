//! The object store and the action cache of a primary over its upstream as one, with a reply for each call.
#![tactic(auto)]

mod keeping;
mod replies;
mod storing;
mod unified;
mod upstream;

pub use unified::Unified;
