// The record that a folder in memory keeps of its past.
ghost use Rattle.std.specs.Prelude.{◌≡◌, OnOk, OnErr};
ghost use Rattle.cas_outside.specs.FolderRecord.{files_after, is_call};

use crate::file_table::FileTable;
use crate::{Bytes, Name};
use std::alloc::{AllocError, Global};

/// A call of a folder, with what it would change.
#[derive(Drop)]
pub(crate) enum FolderCall {
    Enter,
    TryLock,
    Names,
    Read,
    Replace(Name, Bytes),
    Remove(Name),
}

/// What a call answered. A call that found no memory is in no record.
#[derive(Clone, Copy, Debug, PartialEq, Eq)]
pub(crate) enum Outcome {
    Done,
    /// The lock was found held.
    Held,
    Fault,
}

/// A step of a folder's past.
#[derive(Drop)]
pub(crate) enum FolderStep {
    /// A file was given its bytes, by no call.
    Put(Name, Bytes),
    /// A call was made.
    Made(FolderCall, Outcome),
}

impl FolderStep {
    /// Whether it is a call.
    pub(crate) fn is_call(&self) -> bool
        ensures { result ≡ is_call self.now }
    {
        match self {
            FolderStep::Put(..) => false,
            FolderStep::Made(..) => true,
        }
    }

    /// Changes files as the step says.
    pub(crate) fn change(&self, alloc: Global, files: &mut FileTable) -> Result<(), AllocError>
        ensures ok { OnOk result (files.new ≡ files_after files.old self.now) }
        ensures err { OnErr result (files.new ≡ files.old) }
    {
        match self {
            FolderStep::Put(name, bytes)
            | FolderStep::Made(FolderCall::Replace(name, bytes), Outcome::Done) => {
                files.insert(alloc, name.list(), bytes.list())
            }
            FolderStep::Made(FolderCall::Remove(name), Outcome::Done) => {
                files.remove(name.list());
                Ok(())
            }
            FolderStep::Made(..) => Ok(()),
        }
    }
}
