//! Scripts: the sessions of a batch, the text that they come as, running them in turn, and the output.
#![tactic(auto)]

mod rendering;
mod replies;
mod reply_text;
mod run;
mod said;
mod session;
mod tally;
mod turn;

pub use cas_script::{Line, LineKind, Lines, Script, ScriptError, Session, Sessions, workload};
pub use rendering::render;
pub use replies::{Replies, ReplyList, SessionReplies, SessionReplyList};
pub use run::run_in_turn;
pub use tally::{full_lines, summary};
