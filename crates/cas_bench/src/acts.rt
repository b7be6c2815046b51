// Scripts of cached actions that are made up.
use crate::bench_error::BenchError;
use crate::piece::{Measured, mixed};
use cas_model::Digest;
use cas_script::{Line, Script};
use std::alloc::Global;
use std::time::{Clock, Instant};

/// How many actions a session has.
const ACTIONS: u64 = 60_000;

/// What each session begins with.
const HEADERS: &[u8] =
    b"session\nstore t:header-0\nstore t:header-1\nstore t:header-2\nstore t:header-3\n";

/// The text of so many `act` lines, each with four references, of about 48 bytes a line.
fn text_of(alloc: Global, count: u64) -> Result<Vec<u8>, BenchError> {
    let mut text = Vec::new(alloc);
    for number in 0..count {
        if number % ACTIONS == 0 {
            text.extend_from_slice(HEADERS)?;
        }
        let line = format!(in alloc; "act action:work-{number} t:work-{number} %1 %2 %3 %4\n")?;
        text.extend_from_slice(line.as_bytes())?;
    }
    Ok(text)
}

/// Parses the script of so many `act` lines.
pub fn measure_parse(
    clock: &impl Clock,
    alloc: Global,
    count: u64,
) -> Result<Measured, BenchError> {
    let text = text_of(alloc, count)?;
    let start = Instant::now(clock)?;
    let script = Script::parse(alloc, text.as_slice())?;
    let nanos = start.elapsed(clock)?.as_nanos();
    Ok(Measured {
        check: check_of(&script),
        nanos,
    })
}

/// Hashes the objects of so many `act` lines.
pub fn measure_acts(clock: &impl Clock, alloc: Global, count: u64) -> Result<Measured, BenchError> {
    let text = text_of(alloc, count)?;
    let script = Script::parse(alloc, text.as_slice())?;
    let start = Instant::now(clock)?;
    let check = check_of(&script);
    let nanos = start.elapsed(clock)?.as_nanos();
    Ok(Measured { check, nanos })
}

// A check value of the digests of all stored objects.
fn check_of(script: &Script) -> u64 {
    let mut check = 0;
    for session in script.sessions.list() {
        for line in session.lines.list() {
            match line {
                Line::Store { refs, data } | Line::Act { key: _, refs, data } => {
                    let digest = Digest::of(refs.list(), data.list());
                    check = mixed(check, u64::from(digest.bytes[0]));
                }
                Line::Load(_) | Line::Put(_, _) | Line::Get(_) => {}
            }
        }
    }
    check
}
