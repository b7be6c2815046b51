// What is counted of a script that was run.
ghost use Rattle.std.specs.Prelude.{◌≡◌, take, length, IfOk};
ghost use Rattle.cas_script.specs.Limits.{FitsScript};
ghost use Rattle.sessions.specs.Rendering.{own_count};
ghost use Rattle.sessions.specs.Summary.{ends_full, full_in_session, full_in, summary_text};

use crate::Replies;
use crate::rendering::{after, own_count};
use cas_model::Reply;
use cas_script::{Line, Script};
use frozen_store::Counts;
use std::alloc::{AllocError, Global};

/// How many lines of a script have a last reply that is [`Reply::Full`]: a claim was refused.
pub fn full_lines(script: &Script, replies: &Replies) -> u64
    requires fits { FitsScript script.now }
    requires many { length replies.now.sessions ≡ length script.now.sessions }
    ensures { result ≡ full_in script.now.sessions replies.now.sessions }
{
    let answered = replies.sessions.list();
    let mut full = 0;
    for (number, session) in script.sessions.list().iter().enumerate() {
        let own = answered[number].replies.list();
        full += full_in_session(session.lines.list(), own);
    }
    full
}

// How many lines of a session.
fn full_in_session(lines: &[Line], replies: &[Reply]) -> u64
    ensures { result ≡ full_in_session lines.now replies.now }
{
    let mut full = 0;
    let mut rest = replies;
    for line in lines {
        if ends_full(own(line, rest)) {
            full += 1;
        }
        rest = after(line, rest);
    }
    full
}

// The replies of a line, which these begin with.
fn own<'a>(line: &Line, replies: &'a [Reply]) -> &'a [Reply]
    ensures { result.now ≡ take (own_count line.now replies.now) replies.now }
{
    let count = own_count(line, replies);
    if count <= replies.len() {
        &replies[..count]
    } else {
        replies
    }
}

// Whether the last of these replies is that a claim was refused.
fn ends_full(replies: &[Reply]) -> bool
    ensures { result ≡ ends_full replies.now }
{
    matches!(replies.last(), Some(Reply::Full { .. }))
}

/// The summary of a workload: its rounds, its eight sessions, how many lines were run and how many of them were refused a
/// claim, and the counts of the region at closing. It is one line of text, with its end.
pub fn summary(
    alloc: Global,
    rounds: u32,
    lines: u64,
    full: u64,
    counts: &Counts,
) -> Result<Vec<u8>, AllocError>
    ensures { IfOk result (λ text. text.items ≡ summary_text rounds lines full counts.now.objects counts.now.actions) }
{
    let objects = counts.objects;
    let actions = counts.actions;
    let text = format!(in alloc;
        "workload {rounds}: sessions 8, lines {lines}, full {full}, objects {objects}, actions {actions}\n"
    )?;
    Ok(text.into_bytes())
}
