// The work that a command asks for: a script, and what is written of its replies.
ghost use Rattle.std.specs.Prelude.{◌≡◌, IfOk, IfErr, MatchResult};
ghost use Rattle.cas_script.specs.Limits.{FitsScript};
ghost use Rattle.command_line.specs.Commands.{call_of};
ghost use Rattle.cas_command.specs.Work.{HasInput, InputStops, IsCommandWithin, IsTaskWithin, IsWork, TaskStops, ScriptStops, HasScript, script_stop_answer, stop_answer, source_with, IsCallWork, CommandStops};

use crate::answer::{Answer, Large};
use crate::input::{Stop, read_all};
use cas_outside::Source;
use cas_script::{Script, ScriptError, workload};
use command_line::{Command, Shows, Task};
use std::alloc::{AllocError, Global};

/// The most bytes that an object's data has.
const MOST_DATA: usize = 16_777_215;

/// The most bytes that a script has.
const MOST_SCRIPT: usize = 16_777_216;

/// What is written of the replies to a script.
#[derive(Clone, Copy, Debug, PartialEq, Eq)]
pub enum Report {
    /// The output of the script's one reply. Of an object that is found it shows this.
    Reply(Shows),
    /// A line for each line of the script.
    Lines,
    /// The summary of a workload of so many rounds.
    Summary(u32),
}

/// A script to run, and what is written of its replies.
#[derive(Drop)]
pub struct Work {
    pub script: Script,
    pub report: Report,
}

/// The work that a task asks for, with what the source gives.
pub fn work_of<S: Source>(alloc: Global, task: Task, source: &mut S) -> Result<Work, Answer>
    requires { IsTaskWithin task }
    ensures work { IfOk result (λ work. IsWork task (source_with (S.view source.old).left (S.view source.old).faults) (source_with (S.view source.new).left (S.view source.new).faults) work) }
    ensures fits { IfOk result (λ work. FitsScript work.script) }
    ensures stops { IfErr result (λ answer. TaskStops task (source_with (S.view source.old).left (S.view source.old).faults) (source_with (S.view source.new).left (S.view source.new).faults) answer) }
{
    match task {
        Task::Once(command) => call_work(alloc, command, source),
        Task::Batch => Ok(Work {
            script: read_script(alloc, source)?,
            report: Report::Lines,
        }),
        Task::Workload(rounds) => Ok(Work {
            script: workload(alloc, rounds)?,
            report: Report::Summary(rounds),
        }),
        Task::Validate | Task::Prune => unreachable!(),
    }
}

// The work of a command that makes one call.
fn call_work<S: Source>(alloc: Global, command: Command, source: &mut S) -> Result<Work, Answer>
    requires { IsCommandWithin command }
    ensures work { IfOk result (λ work. IsCallWork command (source_with (S.view source.old).left (S.view source.old).faults) (source_with (S.view source.new).left (S.view source.new).faults) work) }
    ensures fits { IfOk result (λ work. FitsScript work.script) }
    ensures stops { IfErr result (λ answer. CommandStops command (source_with (S.view source.old).left (S.view source.old).faults) (source_with (S.view source.new).left (S.view source.new).faults) answer) }
{
    let shows = command.shows();
    let data = match read_input(alloc, &command, source) {
        Ok(data) => data,
        Err(stop) => return Err(stopped(stop)),
    };
    Ok(Work {
        script: Script::single(alloc, command.call(data))?,
        report: Report::Reply(shows),
    })
}

// The data of a command: all that the source gives where the command makes an object, and else none.
fn read_input<S: Source>(alloc: Global, command: &Command, source: &mut S) -> Result<Vec<u8>, Stop>
    ensures ok { IfOk result (λ bytes. HasInput command.now (source_with (S.view source.old).left (S.view source.old).faults) (source_with (S.view source.new).left (S.view source.new).faults) bytes.items) }
    ensures err { IfErr result (λ stop. InputStops command.now (source_with (S.view source.old).left (S.view source.old).faults) (source_with (S.view source.new).left (S.view source.new).faults) stop) }
{
    match command {
        Command::Make(_) => read_all(alloc, source, MOST_DATA),
        _ => Ok(Vec::new(alloc)),
    }
}

// The script that the source gives.
fn read_script<S: Source>(alloc: Global, source: &mut S) -> Result<Script, Answer>
    ensures script { IfOk result (λ script. HasScript (source_with (S.view source.old).left (S.view source.old).faults) (source_with (S.view source.new).left (S.view source.new).faults) script) }
    ensures fits { IfOk result FitsScript }
    ensures stops { IfErr result (λ answer. ScriptStops (source_with (S.view source.old).left (S.view source.old).faults) (source_with (S.view source.new).left (S.view source.new).faults) answer) }
{
    let text = match read_all(alloc, source, MOST_SCRIPT) {
        Ok(text) => text,
        Err(stop) => return Err(script_stopped(stop)),
    };
    match Script::parse(alloc, text.as_slice()) {
        Ok(script) => Ok(script),
        Err(ScriptError::Line(line, kind)) => Err(Answer::BadScript { line, kind }),
        Err(ScriptError::TooLong) => unreachable!(),
        Err(ScriptError::Memory) => Err(Answer::NoMemory),
    }
}

// The answer where the data could not be read.
fn stopped(stop: Stop) -> Answer
    ensures { result ≡ stop_answer stop }
{
    match stop {
        Stop::Fault => Answer::ReadFault,
        Stop::Large => Answer::TooLarge {
            what: Large::Data,
            number: MOST_DATA as u64 + 1,
        },
        Stop::Memory => Answer::NoMemory,
    }
}

// The answer where the script could not be read.
fn script_stopped(stop: Stop) -> Answer
    ensures { result ≡ script_stop_answer stop }
{
    match stop {
        Stop::Fault => Answer::ReadFault,
        Stop::Large => Answer::TooLarge {
            what: Large::Script,
            number: MOST_SCRIPT as u64 + 1,
        },
        Stop::Memory => Answer::NoMemory,
    }
}
