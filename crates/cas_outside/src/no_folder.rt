// The folder of a run that has none.
ghost use Rattle.std.specs.Prelude.{◌≡◌, IfOk};
ghost use Rattle.cas_outside.specs.Folder.{Entered, Locked, Listed, HasReadFile, Replaced, Removed, Stays};

use crate::{Bytes, Folder, FolderError, Name};

/// No folder: `enter` finds no memory, every other call fails, and no file is told. It keeps whether it is entered and
/// locked in fields, which stay false.
#[derive(Drop)]
pub struct NoFolder {
    entered: bool,
    locked: bool,
    faults: u64,
    changes: u64,
}

impl NoFolder {
    ghost use Rattle.std.specs.Prelude.{◌≡◌};
    ghost use Rattle.cas_outside.specs.NoFolder.{no_folder_view};
    ghost use Rattle.cas_outside.specs.Folder.{fresh_view};

    /// No folder, asked for nothing yet and with no fault counted.
    pub fn new() -> NoFolder
        ensures { no_folder_view result ≡ fresh_view }
    {
        NoFolder {
            entered: false,
            locked: false,
            faults: 0,
            changes: 0,
        }
    }
}

impl Folder for NoFolder {
    ghost use Rattle.cas_outside.specs.NoFolder.{no_folder_view};

    ghost view = { λ f. no_folder_view f };

    fn enter(&mut self, dir: &str) -> Result<(), FolderError>
        ensures entered { Entered dir.now (no_folder_view self.old) (no_folder_view self.new) result }
        ensures answer { result ≡ Err FolderError.Memory }
    {
        let _dir = dir;
        Err(FolderError::Memory)
    }

    fn try_lock(&mut self) -> Result<bool, FolderError>
        ensures locked { Locked (no_folder_view self.old) (no_folder_view self.new) result }
        ensures answer { result ≡ Err FolderError.Failed }
    {
        self.faults = self.faults.saturating_add(1);
        Err(FolderError::Failed)
    }

    fn names(&mut self) -> Result<Vec<Name>, FolderError>
        ensures ok { IfOk result (λ names. Listed (no_folder_view self.old) names.items) }
        ensures stays { Stays (no_folder_view self.old) (no_folder_view self.new) result }
        ensures answer { result ≡ Err FolderError.Failed }
    {
        self.faults = self.faults.saturating_add(1);
        Err(FolderError::Failed)
    }

    fn read(&mut self, name: &Name, _most: u64) -> Result<Bytes, FolderError>
        ensures ok { IfOk result (HasReadFile (no_folder_view self.old) name.now _most) }
        ensures stays { Stays (no_folder_view self.old) (no_folder_view self.new) result }
        ensures answer { result ≡ Err FolderError.Failed }
    {
        let _name = name;
        self.faults = self.faults.saturating_add(1);
        Err(FolderError::Failed)
    }

    fn replace(&mut self, name: &Name, bytes: &[u8]) -> Result<(), FolderError>
        ensures replaced { Replaced name.now bytes.now (no_folder_view self.old) (no_folder_view self.new) result }
        ensures answer { result ≡ Err FolderError.Failed }
    {
        let _name = name;
        let _bytes = bytes;
        self.changes = self.changes.saturating_add(1);
        self.faults = self.faults.saturating_add(1);
        Err(FolderError::Failed)
    }

    fn remove(&mut self, name: &Name) -> Result<(), FolderError>
        ensures removed { Removed name.now (no_folder_view self.old) (no_folder_view self.new) result }
        ensures answer { result ≡ Err FolderError.Failed }
    {
        let _name = name;
        self.changes = self.changes.saturating_add(1);
        self.faults = self.faults.saturating_add(1);
        Err(FolderError::Failed)
    }
}
