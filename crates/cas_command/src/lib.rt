//! One command of the store: reads its words and its input, opens the folder, runs the calls, saves, and writes the output.
#![tactic(auto)]

mod answer;
mod closing;
mod seen_run;
mod input;
mod opening;
mod output;
mod pruning;
mod rotation;
mod run;
mod running;
mod streams;
mod validate;
mod work;

pub use answer::{Answer, Large, answer_text};
pub use run::cas_run;
pub use streams::keep_streams;
