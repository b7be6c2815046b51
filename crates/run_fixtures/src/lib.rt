//! What the tests of whole runs share: runs over a folder, a source and a sink in memory.
#![tactic(auto)]

ghost use Rattle.std.specs.Prelude.{◌≡◌, None, IfOk};

use cas_command::{Answer, cas_run};
use cas_outside::{MemFolder, MemSink, MemSource, NoGate};
use std::alloc::Global;
use std::test::Fail;

/// The id of the object without data or references, with a line end.
pub const EMPTY: &str =
    "llvmcas://374708fff7719dd5979ec875d56cd2286f6d3cf7ec317a3b25632aab28ec37bb\n";

/// The id of the object with the data `hello`, with a line end.
pub const HELLO: &str =
    "llvmcas://e49773b3ddae167d5fd8e83f8d02fb7525c54e8127a14767c0edbe206315b669\n";

/// The id of 32 zero bytes, which no object has.
pub const ZERO: &str = "llvmcas://0000000000000000000000000000000000000000000000000000000000000000";

/// A run, by its status, its answer and what it wrote.
#[derive(Drop)]
pub struct Ran {
    pub status: u8,
    pub answer: Answer,
    pub sink: MemSink,
}

/// How a run ended, and how many bytes it wrote.
#[derive(Clone, Copy, Debug, PartialEq, Eq)]
pub struct End {
    pub status: u8,
    pub answer: Answer,
    pub written: usize,
}

/// The end of a run that wrote nothing.
pub fn nothing(status: u8, answer: Answer) -> End {
    End {
        status,
        answer,
        written: 0,
    }
}

impl Ran {
    /// Whether all was done, and the run wrote just this.
    pub fn wrote(&self, text: &[u8]) -> bool {
        self.status == 0 && self.answer == Answer::Done && self.sink.written() == text
    }

    /// How the run ended, and how many bytes it wrote.
    pub fn end(&self) -> End {
        End {
            status: self.status,
            answer: self.answer,
            written: self.sink.written().len(),
        }
    }
}

/// A folder without files, of whose calls these fail.
pub fn folder_failing(alloc: Global, calls: &[u64]) -> Result<MemFolder, Fail>
    ensures { IfOk result (λ folder. folder.asked ≡ None) }
{
    Ok(MemFolder::new(calls.to_vec(alloc)?, Vec::new(alloc)))
}

/// A folder without files.
pub fn fresh_folder(alloc: Global) -> MemFolder
    ensures { result.asked ≡ None }
{
    MemFolder::new(Vec::new(alloc), Vec::new(alloc))
}

/// Runs these words in a folder, on a source of these bytes, as one process does.
pub fn run_in(
    rt: &HostRuntime,
    folder: &mut MemFolder,
    words: &[&str],
    bytes: &[u8],
) -> Result<Ran, Fail>
    requires { folder.old.asked ≡ None }
    ensures { folder.new.asked ≡ None }
{
    run_failing(rt, folder, words, bytes, &[], &[])
}

/// Whether such a run does all and writes just this.
pub fn writes(
    rt: &HostRuntime,
    folder: &mut MemFolder,
    words: &[&str],
    bytes: &[u8],
    text: &[u8],
) -> Result<bool, Fail>
    requires { folder.old.asked ≡ None }
    ensures { folder.new.asked ≡ None }
{
    let ran = run_in(rt, folder, words, bytes)?;
    Ok(ran.wrote(text))
}

/// How such a run ends.
pub fn end_in(
    rt: &HostRuntime,
    folder: &mut MemFolder,
    words: &[&str],
    bytes: &[u8],
) -> Result<End, Fail>
    requires { folder.old.asked ≡ None }
    ensures { folder.new.asked ≡ None }
{
    let ran = run_in(rt, folder, words, bytes)?;
    Ok(ran.end())
}

/// Whether a check of the folder's images tells just this.
pub fn tells(rt: &HostRuntime, folder: &mut MemFolder, lines: &[u8]) -> Result<bool, Fail>
    requires { folder.old.asked ≡ None }
    ensures { folder.new.asked ≡ None }
{
    writes(rt, folder, &["--validate"], b"", lines)
}

/// The same as `run_in`, with the calls of source and sink that fail.
pub fn run_failing(
    rt: &HostRuntime,
    folder: &mut MemFolder,
    words: &[&str],
    bytes: &[u8],
    failing_reads: &[u64],
    failing_writes: &[u64],
) -> Result<Ran, Fail>
    requires { folder.old.asked ≡ None }
    ensures { folder.new.asked ≡ None }
{
    let bytes = bytes.to_vec(rt.alloc())?;
    let source = MemSource::new(bytes, failing_reads.to_vec(rt.alloc())?);
    let failing_writes = failing_writes.to_vec(rt.alloc())?;
    let sink = MemSink::new(rt.alloc(), 1_000_000, 7, failing_writes)?;
    run_over(rt, folder, words, source, sink)
}

/// The same, from this source to this sink.
pub fn run_over(
    rt: &HostRuntime,
    folder: &mut MemFolder,
    words: &[&str],
    source: MemSource,
    sink: MemSink,
) -> Result<Ran, Fail>
    requires { folder.old.asked ≡ None }
    ensures { folder.new.asked ≡ None }
{
    let mut all = owned(rt.alloc(), &["--cas", "c"])?;
    for word in words {
        all.push(word.to_string(rt.alloc())?)?;
    }
    run_words(rt, folder, &all, source, sink)
}

/// The same, of just these words, without `--cas c` before them.
pub fn run_words(
    rt: &HostRuntime,
    folder: &mut MemFolder,
    words: &[String],
    source: MemSource,
    sink: MemSink,
) -> Result<Ran, Fail>
    requires { folder.old.asked ≡ None }
    ensures { folder.new.asked ≡ None }
{
    let mut source = source;
    let mut sink = sink;
    let outcome = cas_run(rt, words, folder, &mut source, &mut sink, &NoGate);
    folder.leave();
    Ok(Ran {
        status: outcome.status,
        answer: outcome.answer,
        sink,
    })
}

/// These words, each a text of its own.
pub fn owned(alloc: Global, words: &[&str]) -> Result<Vec<String>, Fail> {
    let mut owned = Vec::new(alloc);
    for word in words {
        owned.push(word.to_string(alloc)?)?;
    }
    Ok(owned)
}
