// The output of a batch.
ghost use Rattle.std.specs.Prelude.{◌≡◌, ◌++◌, drop, length, IfOk, OnOk};
ghost use Rattle.sessions.specs.Rendering.{batch_text, lines_text, own_count};

use crate::Replies;
use crate::reply_text::{push_front, push_line_text};
use cas_model::Reply;
use cas_script::{Line, Script};
use std::alloc::{AllocError, Global};

/// The output of a batch: for each line of each session the session's number, `.`, the line's number in its session, a
/// space, what the line was answered, and a line end. The table of texts is in docs/SCRIPT.md. It is this project's own.
pub fn render(alloc: Global, script: &Script, replies: &Replies) -> Result<Vec<u8>, AllocError>
    requires { length replies.now.sessions ≡ length script.now.sessions }
    ensures { IfOk result (λ text. text.items ≡ batch_text script.now.sessions replies.now.sessions) }
{
    let answered = replies.sessions.list();
    let mut text = Vec::new(alloc);
    for (number, session) in script.sessions.list().iter().enumerate() {
        let own = answered[number].replies.list();
        push_lines(alloc, &mut text, number, session.lines.list(), own)?;
    }
    Ok(text)
}

// Adds the lines of a session.
fn push_lines(
    alloc: Global,
    text: &mut Vec<u8>,
    session: usize,
    lines: &[Line],
    replies: &[Reply],
) -> Result<(), AllocError>
    ensures { OnOk result (text.new.items ≡ text.old.items ++ lines_text session 1 lines.now replies.now) }
{
    let mut rest = replies;
    for (index, line) in lines.iter().enumerate() {
        push_front(text, session, index + 1)?;
        push_line_text(alloc, text, line, rest)?;
        text.push(b'\n')?;
        rest = after(line, rest);
    }
    Ok(())
}

/// The replies after those of a line.
pub fn after<'a>(line: &Line, replies: &'a [Reply]) -> &'a [Reply]
    ensures { result.now ≡ drop (own_count line.now replies.now) replies.now }
{
    let count = own_count(line, replies);
    if count <= replies.len() {
        &replies[count..]
    } else {
        &[]
    }
}

/// How many of these replies are the line's.
pub fn own_count(line: &Line, replies: &[Reply]) -> usize
    ensures { result ≡ own_count line.now replies.now }
{
    match line {
        Line::Act { .. } => match replies {
            [Reply::Miss, Reply::Stored(_), ..] => 3,
            [Reply::Miss, ..] => 2,
            _ => 1,
        },
        _ => 1,
    }
}
