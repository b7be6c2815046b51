// A folder of files, which one process locks.
ghost use Rattle.std.specs.Prelude.{◌≡◌, ◌<◌, ◌-◌, ◌^◌, true, IfOk};
ghost use Rattle.cas_outside.specs.Folder.{FolderView, MayEnter, Entered, Locked, Listed, MayAsk, HasFile, HasReadFile, Replaced, Removed, Stays};

use crate::{Bytes, Failed, Name};
use std::alloc::AllocError;
use std::io::{self, ErrorKind};
use thiserror::Error;

/// Why a call of a folder did nothing, or maybe not all.
#[derive(Clone, Copy, Debug, PartialEq, Eq, Drop, Error)]
pub enum FolderError {
    /// It failed, and its count of faults rose in this call.
    #[error("the folder failed")]
    Failed,
    /// It found no memory, and all is as before.
    #[error("no memory")]
    Memory,
}

impl From<AllocError> for FolderError {
    ghost use Rattle.std.specs.Prelude.{◌≡◌};
    ghost use Rattle.cas_outside.specs.declared.folder.FolderError.TheVariants.{Memory};

    ghost from_gives = { λ _ e. e ≡ Memory };

    fn from(_: AllocError) -> Self {
        FolderError::Memory
    }
}

impl From<Failed> for FolderError {
    ghost use Rattle.std.specs.Prelude.{◌≡◌};
    ghost use Rattle.cas_outside.specs.declared.folder.FolderError.TheVariants as answer;

    ghost from_gives = { λ _ e. e ≡ answer.Failed };

    fn from(_: Failed) -> Self {
        FolderError::Failed
    }
}

// Want of memory is told as such, and every other error is a fault.
impl From<io::Error> for FolderError {
    ghost use Rattle.std.specs.Prelude.{◌≡◌, ◌↔◌};
    ghost use Rattle.std.specs.IoError.{error_kind};
    ghost use Rattle.std.specs.declared.io.ErrorKind.TheVariants.{OutOfMemory};
    ghost use Rattle.cas_outside.specs.declared.folder.FolderError.TheVariants.{Memory};

    ghost from_gives = { λ error e. (e ≡ Memory) ↔ (error_kind error ≡ OutOfMemory) };

    fn from(error: io::Error) -> Self {
        if error.kind() == ErrorKind::OutOfMemory {
            FolderError::Memory
        } else {
            FolderError::Failed
        }
    }
}

/// A folder of files that one process locks at a time.
///
/// One object is one use of one folder: it is entered and locked, and then listed, read and changed, until it is dropped,
/// which gives the lock up. Its files grow by `replace` alone, each as a whole, and `remove` takes one away; meanwhile
/// another object of the same folder finds the lock held.
///
/// Names that are asked for begin with `v`, have at most 16 bytes,
/// and only letters, digits and dots, so that no caller makes a call fail by what it asks for. The names `lock` and
/// `tmp` belong to the folder itself and are in no listing.
pub trait Folder {
    /// What contracts see of it: which folder was asked for, whether it is entered and locked, its files where they
    /// are told, and its counts, none of which falls.
    ghost view: { Self → FolderView };

    /// Enters the folder at a path. After `Failed` it was asked for and is not entered.
    fn enter(&mut self, dir: &str) -> Result<(), FolderError>
        requires { MayEnter (view self.old) }
        ensures { Entered dir.now (view self.old) (view self.new) result };

    /// Takes the lock, without waiting. `Ok(false)` comes only where the count of times held rose in this call. An
    /// object that holds the lock answers true.
    fn try_lock(&mut self) -> Result<bool, FolderError>
        requires { (view self.old).entered ≡ true }
        ensures { Locked (view self.old) (view self.new) result };

    /// The name of each file once, in any order.
    fn names(&mut self) -> Result<Vec<Name>, FolderError>
        requires { (view self.old).locked ≡ true }
        ensures ok { IfOk result (λ names. Listed (view self.old) names.items) }
        ensures stays { Stays (view self.old) (view self.new) result };

    /// The first `most + 1` bytes of a file, or all of it where it is shorter.
    fn read(&mut self, name: &Name, most: u64) -> Result<Bytes, FolderError>
        requires locked { (view self.old).locked ≡ true }
        requires name { MayAsk name.now }
        requires there { HasFile (view self.old) name.now }
        requires most { most < 2 ^ 64 - 1 }
        ensures ok { IfOk result (HasReadFile (view self.old) name.now most) }
        ensures stays { Stays (view self.old) (view self.new) result };

    /// Gives a file these bytes, whether it was there or not. After `Failed` it has its old bytes or the new ones. No
    /// other file changes, and the count of changes rises by one.
    fn replace(&mut self, name: &Name, bytes: &[u8]) -> Result<(), FolderError>
        requires locked { (view self.old).locked ≡ true }
        requires name { MayAsk name.now }
        ensures { Replaced name.now bytes.now (view self.old) (view self.new) result };

    /// Removes a file. After `Failed` it is there as before, or gone. No other file changes, and the count of changes
    /// rises by one.
    fn remove(&mut self, name: &Name) -> Result<(), FolderError>
        requires locked { (view self.old).locked ≡ true }
        requires name { MayAsk name.now }
        requires there { HasFile (view self.old) name.now }
        ensures { Removed name.now (view self.old) (view self.new) result };
}
