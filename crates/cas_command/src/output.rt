// The output: its text, and writing it.
ghost use Rattle.std.specs.Prelude.{◌≡◌, ◌⊎◌, ◌++◌, Some, length, IfOk, MatchResult, OnOk, OnErr};
ghost use Rattle.std.specs.Io.KnownBytes.{Appends};
ghost use Rattle.cas_outside.specs.Causes.{Rose};
ghost use Rattle.cas_script.specs.Limits.{FitsScript};
ghost use Rattle.cas_command.specs.declared.answer.Answer.TheVariants.{NoMemory};
ghost use Rattle.cas_command.specs.Output.{HasOneReply, IsOneReply, IsOutputOfOne, MayReply, Reports, id_line, kept_refusal, kept_text, object_text, ref_lines, refusal_of, text_of};
ghost use Rattle.cas_command.specs.Writing.{AppendsPart};

use crate::answer::Answer;
use crate::work::{Report, Work};
use cas_model::{Digest, Full, Id, Object, Reply};
use cas_outside::{Failed, Sink};
use cas_script::{Line, Script};
use command_line::Shows;
use frozen_store::Counts;
use sessions::{Replies, full_lines, render, summary};
use std::alloc::{AllocError, Global};

/// What a run gives.
#[derive(Drop)]
pub enum Output {
    /// A text to write.
    Text(Vec<u8>),
    /// An answer in place of a text.
    Denied(Answer),
}

/// What the replies to a script give, with the counts of objects and actions at the end.
pub fn output_of(
    alloc: Global,
    work: &Work,
    replies: &Replies,
    counts: &Counts,
) -> Result<Output, AllocError>
    requires fits { FitsScript work.now.script }
    requires many { length replies.now.sessions ≡ length work.now.script.sessions }
    requires one { HasOneReply work.now.report work.now.script replies.now }
    ensures { IfOk result (λ output. Reports work.now.report work.now.script replies.now counts.now.objects counts.now.actions output) }
{
    match work.report {
        Report::Reply(shows) => reply_output(alloc, shows, &work.script, replies),
        Report::Lines => Ok(Output::Text(render(alloc, &work.script, replies)?)),
        Report::Summary(rounds) => {
            let lines = 8 * (4 + u64::from(rounds));
            let full = full_lines(&work.script, replies);
            Ok(Output::Text(summary(alloc, rounds, lines, full, counts)?))
        }
    }
}

// What the one reply to the one line of a script gives.
fn reply_output(
    alloc: Global,
    shows: Shows,
    script: &Script,
    replies: &Replies,
) -> Result<Output, AllocError>
    requires { IsOneReply script.now replies.now }
    ensures { IfOk result (λ output. IsOutputOfOne shows script.now replies.now output) }
{
    let line = &script.sessions.list()[0].lines.list()[0];
    let reply = &replies.sessions.list()[0].replies.list()[0];
    match reply_text(alloc, shows, line, reply) {
        Ok(text) => Ok(Output::Text(text)),
        Err(Answer::NoMemory) => Err(AllocError),
        Err(answer) => Ok(Output::Denied(answer)),
    }
}

// The text that the reply to a line of one call gives, or the answer in its place.
fn reply_text(alloc: Global, shows: Shows, line: &Line, reply: &Reply) -> Result<Vec<u8>, Answer>
    requires { MayReply line.now reply.now }
    ensures { MatchResult result (λ text. text_of shows line.now reply.now ≡ Some text.items)
        (λ answer. (answer ≡ NoMemory) ⊎ (refusal_of line.now reply.now ≡ Some answer)) }
{
    match (line, reply) {
        (_, Reply::Full { at, asked, size }) => Err(Answer::Full(Full {
            at: *at,
            asked: *asked,
            size: *size,
        })),
        (Line::Store { .. }, Reply::Stored(digest)) => Ok(line_of(alloc, *digest)?),
        (Line::Load(_), Reply::Found(object)) => Ok(object_text(alloc, shows, object)?),
        (Line::Put(_, value), Reply::Kept(kept)) => kept_line(alloc, *value, *kept),
        (Line::Get(_), Reply::Hit(value)) => Ok(line_of(alloc, *value)?),
        (Line::Load(digest), Reply::Missing) => Err(Answer::Missing(*digest)),
        (Line::Get(key), Reply::Miss) => Err(Answer::Missing(*key)),
        (Line::Store { .. } | Line::Put(_, _), Reply::Dangling { index, digest }) => {
            Err(Answer::Dangling {
                index: *index,
                digest: *digest,
            })
        }
        _ => unreachable!(),
    }
}

// What a command writes of an object.
fn object_text(alloc: Global, shows: Shows, object: &Object) -> Result<Vec<u8>, AllocError>
    ensures { IfOk result (λ text. text.items ≡ object_text shows object.now) }
{
    match shows {
        Shows::Data => object.data.list().to_vec(alloc),
        Shows::References => lines_of(alloc, object.refs.list()),
    }
}

// The line of a put, where the key has the value that was given.
fn kept_line(alloc: Global, value: Digest, kept: Digest) -> Result<Vec<u8>, Answer>
    ensures { MatchResult result (λ text. kept_text value kept ≡ Some text.items)
        (λ answer. (answer ≡ NoMemory) ⊎ (kept_refusal value kept ≡ Some answer)) }
{
    if value != kept {
        return Err(Answer::Poisoned {
            wanted: value,
            kept,
        });
    }
    let mut text = b"kept ".to_vec(alloc)?;
    push_id(alloc, &mut text, kept)?;
    Ok(text)
}

// A line for each id.
fn lines_of(alloc: Global, digests: &[Digest]) -> Result<Vec<u8>, AllocError>
    ensures { IfOk result (λ text. text.items ≡ ref_lines digests.now) }
{
    let mut text = Vec::new(alloc);
    for digest in digests {
        push_id(alloc, &mut text, *digest)?;
    }
    Ok(text)
}

// The line of an id.
fn line_of(alloc: Global, digest: Digest) -> Result<Vec<u8>, AllocError>
    ensures { IfOk result (λ text. text.items ≡ id_line digest) }
{
    let mut text = Vec::new(alloc);
    push_id(alloc, &mut text, digest)?;
    Ok(text)
}

/// Adds an id and a line end.
pub fn push_id(alloc: Global, text: &mut Vec<u8>, digest: Digest) -> Result<(), AllocError>
    ensures { OnOk result (text.new.items ≡ text.old.items ++ id_line digest) }
{
    let id = Id { digest }.text(alloc)?;
    text.extend_from_slice(&id)?;
    text.push(b'\n')?;
    Ok(())
}

/// Writes all the bytes. After a fault a part of them, from the front, was written.
pub fn write_all<W: Sink>(sink: &mut W, bytes: &[u8]) -> Result<(), Failed>
    ensures ok { OnOk result (Appends (W.view sink.old).held (W.view sink.new).held bytes.now) }
    ensures part { OnErr result (AppendsPart (W.view sink.old).held (W.view sink.new).held bytes.now) }
    ensures fault { OnErr result (Rose (W.view sink.old).faults (W.view sink.new).faults) }
{
    let mut at = 0;
    while at < bytes.len() {
        at += sink.write(&bytes[at..])?;
    }
    Ok(())
}
