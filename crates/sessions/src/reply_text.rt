// The texts of replies.
ghost use Rattle.std.specs.Prelude.{◌≡◌, ◌++◌, ◌∷◌, codes, decimal, OnOk};
ghost use Rattle.cas_model.specs.Id.{id_text};
ghost use Rattle.sessions.specs.Rendering.{named, data_text, refs_text, found_text, put_text, refused_text, put_reply_text, once_text, made_text, act_text, line_text, front_text};

use cas_model::{Digest, Id, Object, Reply};
use cas_script::{Line, push_number};
use std::alloc::{AllocError, Global};

/// Adds what a line was answered, by the first of these replies.
pub fn push_line_text(
    alloc: Global,
    text: &mut Vec<u8>,
    line: &Line,
    replies: &[Reply],
) -> Result<(), AllocError>
    ensures { OnOk result (text.new.items ≡ text.old.items ++ line_text line.now replies.now) }
{
    match replies {
        [] => Ok(()),
        [reply, rest @ ..] => match line {
            Line::Act { .. } => push_act(alloc, text, reply, rest),
            _ => push_once(alloc, text, line, reply),
        },
    }
}

/// Adds the numbers of a session and of a line in it.
pub fn push_front(text: &mut Vec<u8>, session: usize, number: usize) -> Result<(), AllocError>
    ensures { OnOk result (text.new.items ≡ text.old.items ++ front_text session number) }
{
    push_number(text, session as u64)?;
    text.push(b'.')?;
    push_number(text, number as u64)?;
    text.push(b' ')?;
    Ok(())
}

// A line of one call.
fn push_once(
    alloc: Global,
    text: &mut Vec<u8>,
    line: &Line,
    reply: &Reply,
) -> Result<(), AllocError>
    ensures { OnOk result (text.new.items ≡ text.old.items ++ once_text line.now reply.now) }
{
    match (line, reply) {
        (Line::Store { .. }, Reply::Stored(digest)) => push_named(alloc, text, b"stored ", *digest),
        (Line::Load(_), Reply::Found(object)) => push_found(alloc, text, object),
        (Line::Load(_), Reply::Missing) => text.extend_from_slice(b"missing"),
        (Line::Put(_, value), _) => push_put(alloc, text, b"kept ", *value, reply),
        (Line::Get(_), Reply::Hit(value)) => push_named(alloc, text, b"hit ", *value),
        (Line::Get(_), Reply::Miss) => text.extend_from_slice(b"miss"),
        _ => push_refused(alloc, text, reply),
    }
}

// An action: the reply to its get, and those after it.
fn push_act(
    alloc: Global,
    text: &mut Vec<u8>,
    reply: &Reply,
    rest: &[Reply],
) -> Result<(), AllocError>
    ensures { OnOk result (text.new.items ≡ text.old.items ++ act_text reply.now rest.now) }
{
    match reply {
        Reply::Hit(value) => push_named(alloc, text, b"hit ", *value),
        Reply::Miss => push_made(alloc, text, rest),
        _ => push_refused(alloc, text, reply),
    }
}

// An action that missed its key.
fn push_made(alloc: Global, text: &mut Vec<u8>, replies: &[Reply]) -> Result<(), AllocError>
    ensures { OnOk result (text.new.items ≡ text.old.items ++ made_text replies.now) }
{
    match replies {
        [] => Ok(()),
        [Reply::Stored(digest), reply, ..] => push_put(alloc, text, b"made ", *digest, reply),
        [reply, ..] => push_refused(alloc, text, reply),
    }
}

// The reply to a put of this value.
fn push_put(
    alloc: Global,
    text: &mut Vec<u8>,
    word: &[u8],
    wanted: Digest,
    reply: &Reply,
) -> Result<(), AllocError>
    ensures { OnOk result (text.new.items ≡ text.old.items ++ put_reply_text word.now wanted reply.now) }
{
    match reply {
        Reply::Kept(kept) => push_kept(alloc, text, word, wanted, *kept),
        _ => push_refused(alloc, text, reply),
    }
}

// The value that a key has after a put of one.
fn push_kept(
    alloc: Global,
    text: &mut Vec<u8>,
    word: &[u8],
    wanted: Digest,
    kept: Digest,
) -> Result<(), AllocError>
    ensures { OnOk result (text.new.items ≡ text.old.items ++ put_text word.now wanted kept) }
{
    if wanted == kept {
        push_named(alloc, text, word, kept)
    } else {
        push_named(alloc, text, b"poisoned ", wanted)?;
        push_named(alloc, text, b" ", kept)
    }
}

// A reply that any call may have.
fn push_refused(alloc: Global, text: &mut Vec<u8>, reply: &Reply) -> Result<(), AllocError>
    ensures { OnOk result (text.new.items ≡ text.old.items ++ refused_text reply.now) }
{
    match reply {
        Reply::Dangling { index, digest } => push_dangling(alloc, text, *index, *digest),
        Reply::Full { at, asked, size } => push_full(text, *at, *asked, *size),
        _ => Ok(()),
    }
}

fn push_dangling(
    alloc: Global,
    text: &mut Vec<u8>,
    index: u32,
    digest: Digest,
) -> Result<(), AllocError>
    ensures { OnOk result (text.new.items ≡ text.old.items ++ (codes "dangling " ++ decimal index ++ named (codes " ") digest)) }
{
    text.extend_from_slice(b"dangling ")?;
    push_number(text, u64::from(index))?;
    push_named(alloc, text, b" ", digest)
}

fn push_full(text: &mut Vec<u8>, at: u64, asked: u64, size: u64) -> Result<(), AllocError>
    ensures { OnOk result (text.new.items ≡ text.old.items ++ (codes "full " ++ decimal at ++ codes " " ++ decimal asked ++ codes " " ++ decimal size)) }
{
    text.extend_from_slice(b"full ")?;
    push_number(text, at)?;
    text.push(b' ')?;
    push_number(text, asked)?;
    text.push(b' ')?;
    push_number(text, size)
}

// An object that was found.
fn push_found(alloc: Global, text: &mut Vec<u8>, object: &Object) -> Result<(), AllocError>
    ensures { OnOk result (text.new.items ≡ text.old.items ++ found_text object.now) }
{
    text.extend_from_slice(b"found ")?;
    push_data(alloc, text, object.data.list())?;
    push_refs(alloc, text, object.refs.list())
}

fn push_data(alloc: Global, text: &mut Vec<u8>, bytes: &[u8]) -> Result<(), AllocError>
    ensures { OnOk result (text.new.items ≡ text.old.items ++ data_text bytes.now) }
{
    if bytes.is_empty() {
        text.push(b'-')?;
        Ok(())
    } else {
        text.extend_from_slice(b"x:")?;
        let digits = hex::encode(alloc, bytes)?;
        text.extend_from_slice(digits.as_bytes())
    }
}

fn push_refs(alloc: Global, text: &mut Vec<u8>, refs: &[Digest]) -> Result<(), AllocError>
    ensures { OnOk result (text.new.items ≡ text.old.items ++ refs_text refs.now) }
{
    for digest in refs {
        push_named(alloc, text, b" ", *digest)?;
    }
    Ok(())
}

// A word and an id.
fn push_named(
    alloc: Global,
    text: &mut Vec<u8>,
    word: &[u8],
    digest: Digest,
) -> Result<(), AllocError>
    ensures { OnOk result (text.new.items ≡ text.old.items ++ named word.now digest) }
{
    text.extend_from_slice(word)?;
    let id = Id { digest }.text(alloc)?;
    text.extend_from_slice(&id)
}
