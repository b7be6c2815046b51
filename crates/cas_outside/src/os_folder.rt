// A folder of the system, behind std's lock on its file `lock`.
ghost use Rattle.std.specs.Prelude.{◌≡◌, ◌<◌, ◌≤◌, ◌+◌, ◌-◌, ◌^◌, List, ℕ, true, length, IfOk};
ghost use Rattle.cas_outside.specs.Folder.{fresh_view, MayEnter, Entered, Locked, Listed, MayAsk, HasFile, HasReadFile, Replaced, Removed, Stays};
ghost use Rattle.cas_outside.specs.Plan.{next};
ghost use Rattle.cas_outside.specs.OsFiles.{ListsFreeNames};
ghost use Rattle.cas_outside.specs.OsFolder.{os_view, held_after, CountsAs, CountsFault};

use crate::os_files::{list_names, make_folder, put_file, read_file, remove_file, take_lock};
use crate::{Bytes, Folder, FolderError, Name};
use std::fs::File;
use std::rt::Files;

// What is known of the folder: which was asked for, its lock, and what was counted.
#[derive(Drop)]
pub(crate) struct OsState {
    asked: Option<String>,
    entered: bool,
    lock: Option<File>,
    faults: u64,
    held: u64,
    changes: u64,
}

impl OsState {
    // The folder's path, once it was asked for.
    fn dir(&self) -> &str {
        match &self.asked {
            Some(dir) => dir.as_str(),
            None => "",
        }
    }

    // Counts a fault, where the answer is one.
    fn counted<T>(&mut self, done: Result<T, FolderError>) -> Result<T, FolderError>
        ensures counted { CountsFault self.old self.new done result }
        ensures stays { Stays (os_view self.old) (os_view self.new) result }
    {
        match done {
            Ok(answer) => Ok(answer),
            Err(FolderError::Failed) => {
                self.faults = self.faults.saturating_add(1);
                Err(FolderError::Failed)
            }
            Err(FolderError::Memory) => Err(FolderError::Memory),
        }
    }

    // Counts a change, and a fault where the answer is one.
    fn changed(&mut self, done: Result<(), FolderError>) -> Result<(), FolderError>
        ensures counted { CountsFault (record self.old { changes = next self.old.changes }) self.new done result }
        ensures replaced { (name bytes : List ℕ) → Replaced name bytes (os_view self.old) (os_view self.new) result }
        ensures removed { (name : List ℕ) → Removed name (os_view self.old) (os_view self.new) result }
    {
        self.changes = self.changes.saturating_add(1);
        match done {
            Ok(()) => Ok(()),
            Err(FolderError::Failed) => {
                self.faults = self.faults.saturating_add(1);
                Err(FolderError::Failed)
            }
            Err(FolderError::Memory) => Err(FolderError::Memory),
        }
    }
}

/// A folder of the system. It tells nothing of its files. Its lock is std's lock on the file `lock`, which is free
/// again when the object is dropped or the process ends. A read or a write that is interrupted is tried again, 1,000
/// times at most.
#[derive(Drop)]
pub struct OsFolder<R> {
    rt: R,
    state: OsState,
}

impl<R: Files<File = File> + AllocGlobal + Clone + Drop> OsFolder<R> {
    /// A folder over this runtime, asked for nothing yet and with nothing counted.
    pub fn new(rt: R) -> OsFolder<R>
        ensures { os_view result.state ≡ fresh_view }
    {
        OsFolder {
            rt,
            state: OsState {
                asked: None,
                entered: false,
                lock: None,
                faults: 0,
                held: 0,
                changes: 0,
            },
        }
    }
}

impl<R: Files<File = File> + AllocGlobal + Clone + Drop> Folder for OsFolder<R> {
    ghost view = { λ f. os_view f.state };

    fn enter(&mut self, dir: &str) -> Result<(), FolderError>
        requires { MayEnter (os_view self.old.state) }
        ensures entered { Entered dir.now (os_view self.old.state) (os_view self.new.state) result }
        ensures counts { CountsAs self.old.state.held self.old.state.changes (os_view self.old.state) (os_view self.new.state) result }
    {
        let asked = String::from_str(self.rt.alloc(), dir)?;
        match make_folder(&self.rt, dir) {
            Ok(()) => {
                self.state.asked = Some(asked);
                self.state.entered = true;
                Ok(())
            }
            Err(FolderError::Failed) => {
                self.state.asked = Some(asked);
                self.state.faults = self.state.faults.saturating_add(1);
                Err(FolderError::Failed)
            }
            Err(FolderError::Memory) => Err(FolderError::Memory),
        }
    }

    fn try_lock(&mut self) -> Result<bool, FolderError>
        requires { (os_view self.old.state).entered ≡ true }
        ensures locked { Locked (os_view self.old.state) (os_view self.new.state) result }
        ensures counts { CountsAs (held_after self.old.state.held result) self.old.state.changes (os_view self.old.state) (os_view self.new.state) result }
    {
        if self.state.lock.is_some() {
            return Ok(true);
        }
        let taken = take_lock(&self.rt, self.state.dir());
        match self.state.counted(taken)? {
            Some(file) => {
                self.state.lock = Some(file);
                Ok(true)
            }
            None => {
                self.state.held = self.state.held.saturating_add(1);
                Ok(false)
            }
        }
    }

    fn names(&mut self) -> Result<Vec<Name>, FolderError>
        requires { (os_view self.old.state).locked ≡ true }
        ensures ok { IfOk result (λ names. Listed (os_view self.old.state) names.items) }
        ensures free { IfOk result (λ names. ListsFreeNames names.items) }
        ensures stays { Stays (os_view self.old.state) (os_view self.new.state) result }
        ensures counts { CountsAs self.old.state.held self.old.state.changes (os_view self.old.state) (os_view self.new.state) result }
    {
        let names = list_names(&self.rt, self.state.dir());
        self.state.counted(names)
    }

    fn read(&mut self, name: &Name, most: u64) -> Result<Bytes, FolderError>
        requires locked { (os_view self.old.state).locked ≡ true }
        requires name { MayAsk name.now }
        requires there { HasFile (os_view self.old.state) name.now }
        requires most { most < 2 ^ 64 - 1 }
        ensures ok { IfOk result (HasReadFile (os_view self.old.state) name.now most) }
        ensures front { IfOk result (λ bytes. length bytes ≤ most + 1) }
        ensures stays { Stays (os_view self.old.state) (os_view self.new.state) result }
        ensures counts { CountsAs self.old.state.held self.old.state.changes (os_view self.old.state) (os_view self.new.state) result }
    {
        let bytes = read_file(&self.rt, self.state.dir(), name, most);
        let bytes = self.state.counted(bytes)?;
        Ok(Bytes::of_vec(bytes))
    }

    fn replace(&mut self, name: &Name, bytes: &[u8]) -> Result<(), FolderError>
        requires locked { (os_view self.old.state).locked ≡ true }
        requires name { MayAsk name.now }
        ensures replaced { Replaced name.now bytes.now (os_view self.old.state) (os_view self.new.state) result }
        ensures counts { CountsAs self.old.state.held (next self.old.state.changes) (os_view self.old.state) (os_view self.new.state) result }
    {
        let done = put_file(&self.rt, self.state.dir(), name, bytes);
        self.state.changed(done)
    }

    fn remove(&mut self, name: &Name) -> Result<(), FolderError>
        requires locked { (os_view self.old.state).locked ≡ true }
        requires name { MayAsk name.now }
        requires there { HasFile (os_view self.old.state) name.now }
        ensures removed { Removed name.now (os_view self.old.state) (os_view self.new.state) result }
        ensures counts { CountsAs self.old.state.held (next self.old.state.changes) (os_view self.old.state) (os_view self.new.state) result }
    {
        let done = remove_file(&self.rt, self.state.dir(), name);
        self.state.changed(done)
    }
}
