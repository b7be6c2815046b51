// The workload.
ghost use Rattle.std.specs.Prelude.{◌≡◌, ◌<◌, ◌≤◌, ◌++◌, codes, decimal, IfOk};
ghost use Rattle.cas_script.specs.Limits.{FitsScript};
ghost use Rattle.cas_script.specs.Workload.{header_name, header_lines, header_digests, work_line, work_session, workload_script};

use crate::number_text::push_number;
use crate::{Line, Lines, Script, Session, Sessions};
use cas_model::{Data, Digest, Refs};
use std::alloc::{AllocError, Global};

/// How many sessions a workload has.
const SESSIONS: u64 = 8;

/// How many headers each session stores first.
const HEADERS: u64 = 4;

/// The workload of so many rounds: eight sessions that share four headers and do one another's work again.
///
/// Session s stores the headers, and then in each round j does the work K, an `act` line whose object refers to the headers,
/// with K = (7 s + j j) mod (2 N + 1) for N rounds. docs/SCRIPT.md has it as a text. An error is want of memory.
pub fn workload(alloc: Global, rounds: u32) -> Result<Script, AllocError>
    ensures is { IfOk result (λ script. script ≡ workload_script rounds) }
    // With more rounds a session has too many lines.
    ensures fits { rounds ≤ 65532 → IfOk result FitsScript }
{
    let headers = digests(alloc)?;
    let mut sessions = Vec::new(alloc);
    for session in 0..SESSIONS {
        sessions.push(session_of(alloc, &headers, rounds, session)?)?;
    }
    Ok(Script {
        sessions: Sessions::from_vec(sessions),
    })
}

// The session with this number.
fn session_of(
    alloc: Global,
    headers: &[Digest],
    rounds: u32,
    session: u64,
) -> Result<Session, AllocError>
    requires headers { headers.now ≡ header_digests }
    requires few { session < 8 }
    ensures { IfOk result (λ own. own ≡ work_session rounds session) }
{
    let mut lines = first_lines(alloc)?;
    for round in 0..u64::from(rounds) {
        let number = (7 * session + round * round) % (2 * u64::from(rounds) + 1);
        lines.push(line_of(alloc, headers, number)?)?;
    }
    Ok(Session {
        lines: Lines::from_vec(lines),
    })
}

// The lines that store the headers.
fn first_lines(alloc: Global) -> Result<Vec<Line>, AllocError>
    ensures { IfOk result (λ lines. lines.items ≡ header_lines) }
{
    let mut lines = Vec::new(alloc);
    for number in 0..HEADERS {
        let refs = Refs::from_vec(Vec::new(alloc));
        let data = Data::from_vec(named(alloc, b"header-", number)?);
        lines.push(Line::Store { refs, data })?;
    }
    Ok(lines)
}

// The digests of the headers.
fn digests(alloc: Global) -> Result<Vec<Digest>, AllocError>
    ensures { IfOk result (λ digests. digests.items ≡ header_digests) }
{
    let mut digests = Vec::new(alloc);
    for number in 0..HEADERS {
        let data = named(alloc, b"header-", number)?;
        digests.push(Digest::of(&[], &data))?;
    }
    Ok(digests)
}

// The work with this number.
fn line_of(alloc: Global, headers: &[Digest], number: u64) -> Result<Line, AllocError>
    requires { headers.now ≡ header_digests }
    ensures { IfOk result (λ line. line ≡ work_line number) }
{
    let text = named(alloc, b"work-", number)?;
    let key = Digest::of_key(&text);
    let refs = Refs::of(alloc, headers)?;
    let data = Data::from_vec(text);
    Ok(Line::Act { key, refs, data })
}

// A word and a number.
fn named(alloc: Global, word: &[u8], number: u64) -> Result<Vec<u8>, AllocError>
    ensures { IfOk result (λ text. text.items ≡ word.now ++ decimal number) }
{
    let mut text = word.to_vec(alloc)?;
    push_number(&mut text, number)?;
    Ok(text)
}
