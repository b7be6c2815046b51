// Files in memory, by their names.
ghost use Rattle.std.specs.Prelude.{◌≡◌, Some, OnOk, OnErr, IfOk, option_map};
ghost use Rattle.std.specs.FinMap as fin;
ghost use Rattle.cas_outside.specs.Folder.{ListsNames};

use crate::Name;
use std::alloc::{AllocError, Global};
use std::collections::BTreeMap;
use std::marker::Model;

/// Files by their names, seen as a finite map.
#[derive(Drop)]
pub(crate) struct FileTable {
    files: BTreeMap<Vec<u8>, Vec<u8>>,
}

impl Model for FileTable {
    ghost use Rattle.std.specs.FinMap as fin;
    ghost use Rattle.std.specs.Coded.{coded_ℕ, coded_list};
    ghost use Rattle.cas_outside.specs.Folder.{Files};

    ghost Value = { Files };

    ghost coded = { fin.code (coded_list coded_ℕ) (coded_list coded_ℕ) };

    ghost use Rattle.cas_outside.specs.FileTable.{files_of};

    ghost view = { λ t. files_of t.files.entries };
}

impl FileTable {
    /// No files.
    pub(crate) fn new(alloc: Global) -> FileTable
        ensures { result ≡ fin.empty }
    {
        FileTable {
            files: BTreeMap::new(alloc),
        }
    }

    /// The bytes of a file.
    pub(crate) fn get(&self, name: &[u8]) -> Option<&[u8]>
        ensures { option_map (λ bytes. bytes.now) result ≡ fin.get self.now name.now }
    {
        match self.files.get(name) {
            Some(bytes) => Some(bytes.as_slice()),
            None => None,
        }
    }

    /// Gives a file these bytes, whether it was there or not.
    pub(crate) fn insert(
        &mut self,
        alloc: Global,
        name: &[u8],
        bytes: &[u8],
    ) -> Result<(), AllocError>
        ensures ok { OnOk result (self.new ≡ fin.insert self.old name.now bytes.now) }
        ensures err { OnErr result (self.new ≡ self.old) }
    {
        let name = name.to_vec(alloc)?;
        let bytes = bytes.to_vec(alloc)?;
        self.files.insert(name, bytes)?;
        Ok(())
    }

    /// Removes a file, where it is there.
    pub(crate) fn remove(&mut self, name: &[u8])
        ensures { self.new ≡ fin.remove self.old name.now }
    {
        self.files.remove(name);
    }

    /// The name of each file once.
    pub(crate) fn names(&self, alloc: Global) -> Result<Vec<Name>, AllocError>
        ensures { IfOk result (λ names. ListsNames (Some self.now) names.items) }
    {
        let mut names = Vec::new(alloc);
        for name in self.files.keys() {
            names.push(Name::of(alloc, name)?)?;
        }
        Ok(names)
    }
}
