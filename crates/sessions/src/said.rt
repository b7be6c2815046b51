// What a reply says to an action.
ghost use Rattle.std.specs.Prelude.{IfOk};
ghost use Rattle.sessions.specs.Standing.{HasKept};

use cas_model::{Digest, Reply};
use std::alloc::AllocError;

/// What a reply says to an action: how it goes on.
#[derive(Clone, Copy, Debug)]
pub enum Said {
    /// The object is stored, under this digest.
    Stored(Digest),
    /// The key has no value.
    Missed,
    /// All else, after which an action ends.
    Else,
}

/// Adds a reply to those before it, and answers what it says.
pub fn keep(replies: &mut Vec<Reply>, reply: Reply) -> Result<Said, AllocError>
    ensures { IfOk result (λ said. HasKept reply replies.old.items said replies.new.items) }
{
    let said = match &reply {
        Reply::Stored(digest) => Said::Stored(*digest),
        Reply::Miss => Said::Missed,
        _ => Said::Else,
    };
    replies.push(reply)?;
    Ok(said)
}
