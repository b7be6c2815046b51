//! The command line of the store: reads its words and its input, runs one command, and writes the output.
#![tactic(auto)]

pub use cas_command::cas_run;
use cas_command::{Answer, answer_text, keep_streams};
use cas_outside::{NoGate, OsFolder, ReadSource, WriteSink};
use command_line::UsageKind;
use std::env;
use std::io::{self, ErrorKind, Write};
use std::process::ExitCode;

fn main(rt: HostRuntime) -> ExitCode {
    let _streams = keep_streams(&rt);
    let answer = match words_of(&rt) {
        Ok(words) => run_on_streams(&rt, &words),
        Err(error) if error.kind() == ErrorKind::OutOfMemory => Answer::NoMemory,
        // A word that is not UTF-8.
        Err(_) => Answer::Usage(UsageKind::Words),
    };
    if let Ok(text) = answer_text(rt.alloc(), &answer) {
        // There is nowhere to say that standard error failed.
        let _ = rt.stderr().write_all(&text);
    }
    ExitCode::from(answer.status())
}

// The words after the program's name.
fn words_of(rt: &HostRuntime) -> io::Result<Vec<String>> {
    let mut words = Vec::new(rt.alloc());
    for word in env::args(rt)?.skip(1) {
        words.push(word)?;
    }
    Ok(words)
}

// Runs the command of these words on the standard streams.
fn run_on_streams(rt: &HostRuntime, words: &[String]) -> Answer {
    let Ok(system) = rt.clone() else {
        return Answer::NoMemory;
    };
    let mut folder = OsFolder::new(system);
    let mut source = ReadSource::new(rt.stdin());
    let mut sink = WriteSink::new(rt.stdout());
    cas_run(rt, words, &mut folder, &mut source, &mut sink, &NoGate).answer
}
