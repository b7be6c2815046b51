// A folder in memory, some calls of which fail.
ghost use Rattle.std.specs.Prelude.{◌≡◌, ◌<◌, ◌+◌, ◌-◌, ◌^◌, true, take, IfOk};
ghost use Rattle.cas_outside.specs.declared.folder_record.FolderCall.TheVariants.{Names, Read, Replace, Remove};
ghost use Rattle.cas_outside.specs.Folder.{MayEnter, Entered, Locked, Listed, MayAsk, HasFile, HasReadFile, Replaced, Removed, Stays};
ghost use Rattle.cas_outside.specs.MemFolder.{mem_folder_view, AnswersAs, ChangesAs, EntersAs, LocksAs};

use crate::file_table::FileTable;
use crate::folder_record::{FolderCall, FolderStep, Outcome};
use crate::plan::is_planned;
use crate::{Bytes, Folder, FolderError, Name};
use std::alloc::{AllocError, Global};
use std::marker::Model;

/// A folder over memory. It tells its files. Its calls are counted from 1: one that its first list has fails, and a
/// `try_lock` that its second list has finds the lock held. A call that finds no memory is not counted. It keeps a
/// record of its calls, from which its files follow.
#[derive(Drop)]
pub struct MemFolder {
    alloc: Global,
    files: FileTable,
    fail: Vec<u64>,
    hold: Vec<u64>,
    steps: Vec<FolderStep>,
    asked: Option<Vec<u8>>,
    entered: bool,
    locked: bool,
    changes: u64,
}

impl Model for MemFolder {
    ghost use Rattle.std.specs.Prelude.{◌≡◌, option_map};
    ghost use Rattle.cas_outside.specs.FolderRecord.{files_of_steps};
    ghost use Rattle.cas_outside.specs.MemFolder.{MemState};

    ghost Value = { MemState };

    ghost view = { λ f. record { fail = f.fail.items; hold = f.hold.items; steps = f.steps.items; asked = option_map (λ dir. dir.items) f.asked; entered = f.entered; locked = f.locked; changes = f.changes } };

    ghost invariant = { λ f. f.files ≡ files_of_steps f.steps.items };
}

impl MemFolder {
    ghost use Rattle.std.specs.Prelude.{◌≡◌, true, OnOk, OnErr, option_map};
    ghost use Rattle.std.specs.FinMap as fin;
    ghost use Rattle.cas_outside.specs.declared.folder_record.FolderStep.TheVariants.{Put};
    ghost use Rattle.cas_outside.specs.MemFolder.{AnswersAs, fresh_folder, is_free_name, left_folder, mem_files, next_call, with_step};

    /// A folder without files, of whose calls those of the first list fail, and those of the second find the lock held.
    pub fn new(fail: Vec<u64>, hold: Vec<u64>) -> MemFolder
        ensures { result ≡ fresh_folder fail.items hold.items }
    {
        let alloc = *fail.allocator();
        MemFolder {
            alloc,
            files: FileTable::new(alloc),
            fail,
            hold,
            steps: Vec::new(alloc),
            asked: None,
            entered: false,
            locked: false,
            changes: 0,
        }
    }

    /// The bytes of a file.
    pub fn file(&self, name: &[u8]) -> Option<&[u8]>
        ensures { option_map (λ bytes. bytes.now) result ≡ fin.get (mem_files self.now) name.now }
    {
        self.files.get(name)
    }

    /// Gives a file these bytes, by no call. The names `lock` and `tmp` are the folder's own.
    pub fn set_file(&mut self, name: &[u8], bytes: &[u8]) -> Result<(), AllocError>
        requires { is_free_name name.now ≡ true }
        ensures ok { OnOk result (self.new ≡ with_step self.old (Put name.now bytes.now)) }
        ensures err { OnErr result (self.new ≡ self.old) }
    {
        let name = Name::of(self.alloc, name)?;
        let bytes = Bytes::of(self.alloc, bytes)?;
        self.take(FolderStep::Put(name, bytes))
    }

    /// Stands for the end of a process: no folder was asked for, none is entered, and the lock is free. Files, counts
    /// and the record stay.
    pub fn leave(&mut self)
        ensures { self.new ≡ left_folder self.old }
    {
        self.asked = None;
        self.entered = false;
        self.locked = false;
    }

    // The number of the next call.
    fn next_call(&self) -> u64
        ensures { result ≡ next_call self.now }
    {
        let calls = self.steps.iter().filter(|step| step.is_call()).count();
        calls as u64 + 1
    }

    // Keeps a step, and changes the files as it says.
    fn take(&mut self, step: FolderStep) -> Result<(), AllocError>
        ensures ok { OnOk result (self.new ≡ with_step self.old step) }
        ensures err { OnErr result (self.new ≡ self.old) }
    {
        self.steps.reserve(1)?;
        step.change(self.alloc, &mut self.files)?;
        self.steps.push_reserved(step);
        Ok(())
    }

    // Makes the next call, which is answered at once unless its number is listed.
    fn make(&mut self, call: FolderCall) -> Result<(), FolderError>
        ensures { AnswersAs call self.old self.new result }
    {
        if is_planned(&self.fail, self.next_call()) {
            self.take(FolderStep::Made(call, Outcome::Fault))?;
            return Err(FolderError::Failed);
        }
        self.take(FolderStep::Made(call, Outcome::Done))?;
        Ok(())
    }
}

// The first bytes, one more than the limit at most.
fn front(bytes: &[u8], most: u64) -> &[u8]
    requires { most < 2 ^ 64 - 1 }
    ensures { result.now ≡ take (most + 1) bytes.now }
{
    let count = bytes.len().min((most + 1) as usize);
    &bytes[..count]
}

impl Folder for MemFolder {
    ghost view = { λ f. mem_folder_view f };

    fn enter(&mut self, dir: &str) -> Result<(), FolderError>
        requires { MayEnter (mem_folder_view self.old) }
        ensures entered { Entered dir.now (mem_folder_view self.old) (mem_folder_view self.new) result }
        ensures planned { EntersAs dir.now self.old self.new result }
    {
        let asked = dir.as_bytes().to_vec(self.alloc)?;
        match self.make(FolderCall::Enter) {
            Ok(()) => {
                self.asked = Some(asked);
                self.entered = true;
                Ok(())
            }
            Err(FolderError::Failed) => {
                self.asked = Some(asked);
                Err(FolderError::Failed)
            }
            Err(FolderError::Memory) => Err(FolderError::Memory),
        }
    }

    fn try_lock(&mut self) -> Result<bool, FolderError>
        requires { (mem_folder_view self.old).entered ≡ true }
        ensures locked { Locked (mem_folder_view self.old) (mem_folder_view self.new) result }
        ensures planned { LocksAs self.old self.new result }
    {
        let call = self.next_call();
        if !self.locked && is_planned(&self.hold, call) && !is_planned(&self.fail, call) {
            self.take(FolderStep::Made(FolderCall::TryLock, Outcome::Held))?;
            return Ok(false);
        }
        self.make(FolderCall::TryLock)?;
        self.locked = true;
        Ok(true)
    }

    fn names(&mut self) -> Result<Vec<Name>, FolderError>
        requires { (mem_folder_view self.old).locked ≡ true }
        ensures ok { IfOk result (λ names. Listed (mem_folder_view self.old) names.items) }
        ensures stays { Stays (mem_folder_view self.old) (mem_folder_view self.new) result }
        ensures planned { AnswersAs Names self.old self.new result }
    {
        let names = self.files.names(self.alloc)?;
        self.make(FolderCall::Names)?;
        Ok(names)
    }

    fn read(&mut self, name: &Name, most: u64) -> Result<Bytes, FolderError>
        requires locked { (mem_folder_view self.old).locked ≡ true }
        requires name { MayAsk name.now }
        requires there { HasFile (mem_folder_view self.old) name.now }
        requires most { most < 2 ^ 64 - 1 }
        ensures ok { IfOk result (HasReadFile (mem_folder_view self.old) name.now most) }
        ensures stays { Stays (mem_folder_view self.old) (mem_folder_view self.new) result }
        ensures planned { AnswersAs Read self.old self.new result }
    {
        let bytes = match self.files.get(name.list()) {
            Some(bytes) => Bytes::of(self.alloc, front(bytes, most))?,
            None => unreachable!(),
        };
        self.make(FolderCall::Read)?;
        Ok(bytes)
    }

    fn replace(&mut self, name: &Name, bytes: &[u8]) -> Result<(), FolderError>
        requires locked { (mem_folder_view self.old).locked ≡ true }
        requires name { MayAsk name.now }
        ensures replaced { Replaced name.now bytes.now (mem_folder_view self.old) (mem_folder_view self.new) result }
        ensures planned { ChangesAs (Replace name.now bytes.now) self.old self.new result }
    {
        self.changes = self.changes.saturating_add(1);
        let name = Name::of(self.alloc, name.list())?;
        let bytes = Bytes::of(self.alloc, bytes)?;
        self.make(FolderCall::Replace(name, bytes))
    }

    fn remove(&mut self, name: &Name) -> Result<(), FolderError>
        requires locked { (mem_folder_view self.old).locked ≡ true }
        requires name { MayAsk name.now }
        requires there { HasFile (mem_folder_view self.old) name.now }
        ensures removed { Removed name.now (mem_folder_view self.old) (mem_folder_view self.new) result }
        ensures planned { ChangesAs (Remove name.now) self.old self.new result }
    {
        self.changes = self.changes.saturating_add(1);
        let name = Name::of(self.alloc, name.list())?;
        self.make(FolderCall::Remove(name))
    }
}
