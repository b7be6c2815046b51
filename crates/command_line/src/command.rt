// Commands: what the words ask for.
ghost use Rattle.std.specs.Prelude.{◌≡◌, Some};
ghost use Rattle.command_line.specs.Commands.{call_of, shown_by};
ghost use Rattle.command_line.specs.Words.{first_size};

use cas_model::{Call, Data, Digest, Object, Refs};

/// The size of a first generation where none is given, in words.
pub const DEFAULT_SIZE: u64 = 4_194_304;

/// The commands, by the word that names each.
#[derive(Clone, Copy, Debug, PartialEq, Eq)]
pub enum Verb {
    MakeBlob,
    MakeNode,
    CatNodeData,
    LsNodeRefs,
    PutCacheKey,
    GetCacheResult,
    Batch,
    /// With the word after it, a number of rounds from 1 to 10,000.
    Workload(u32),
    Validate,
    Prune,
}

/// What the words ask for.
#[derive(Drop)]
pub struct Request {
    pub task: Task,
    pub options: Options,
}

/// What is to be done.
#[derive(Drop)]
pub enum Task {
    /// One call of the store.
    Once(Command),
    /// The script that the source gives.
    Batch,
    /// The workload of so many rounds.
    Workload(u32),
    /// A check of the folder's images.
    Validate,
    /// The removal of the generations that no command reads.
    Prune,
}

/// What an option sets. The word after the option is its value.
#[derive(Clone, Copy, Debug, PartialEq, Eq)]
pub enum Setting {
    Workers,
    Size,
    Limit,
}

/// What the options say. One that does not go with the command has no effect.
#[derive(Clone, Copy, Debug, PartialEq, Eq)]
pub struct Options {
    /// How many workers a batch or workload has, from 1 to 64; 1 by default.
    pub workers: u32,
    /// The size of a region that is made, from 4,096 to 67,108,864 words, where it is given.
    pub size: Option<u64>,
    /// The limit in bytes, up to 1,099,511,627,776, where one is given: a primary whose image has more than half of so many
    /// is put under a new, empty one.
    pub limit: Option<u64>,
}

impl Options {
    /// The size of a first generation, in words.
    pub fn first_size(self) -> u64
        ensures { result ≡ first_size self }
    {
        self.size.unwrap_or(DEFAULT_SIZE)
    }
}

/// A command that makes one call, with its operands. The words are LLVM's tool's, the operands' texts this project's own.
#[derive(Drop)]
pub enum Command {
    /// Store an object with these references and the data that the source gives.
    Make(Refs),
    /// Write the data of the object with this digest.
    CatNodeData(Digest),
    /// Write the references of the object with this digest.
    LsNodeRefs(Digest),
    /// Give a key a value.
    PutCacheKey { key: Digest, value: Digest },
    /// Write the value of this key.
    GetCacheResult(Digest),
}

/// What a command shows of an object that it loads.
#[derive(Clone, Copy, Debug, PartialEq, Eq)]
pub enum Shows {
    Data,
    References,
}

impl Command {
    /// What this command shows of an object.
    pub fn shows(&self) -> Shows
        ensures { result ≡ shown_by self.now }
    {
        match self {
            Command::LsNodeRefs(_) => Shows::References,
            _ => Shows::Data,
        }
    }

    /// The one call of this command, with the data that the source gave.
    pub fn call(self, data: Vec<u8>) -> Call
        ensures { result ≡ call_of self «data».items }
    {
        match self {
            Command::Make(refs) => Call::Store(Object {
                refs,
                data: Data::from_vec(data),
            }),
            Command::CatNodeData(digest) | Command::LsNodeRefs(digest) => Call::Load(digest),
            Command::PutCacheKey { key, value } => Call::Put(key, value),
            Command::GetCacheResult(key) => Call::Get(key),
        }
    }
}
