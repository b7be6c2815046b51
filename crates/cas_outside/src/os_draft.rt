// The file `tmp`, on its way to another name.
ghost use Rattle.std.specs.Prelude.{◌≡◌, ◌≢◌, true, length, IfOk, OnOk};
ghost use Rattle.cas_outside.specs.OsDraft.{IsEmptyDraft, HasTaken, IsSynced};

use crate::os_files::refuse_special;
use crate::{FolderError, Sink, WriteSink};
use std::fs::{self, File};
use std::io;
use std::rt::Files;

/// The file `tmp`, open for writing. It takes another name only where it has all of its bytes and they were synced.
#[derive(Drop)]
pub(crate) struct Draft {
    file: File,
    taken: usize,
    synced: bool,
}

impl Draft {
    /// An empty file at the path.
    pub(crate) fn create<R: Files<File = File>>(rt: &R, path: &str) -> Result<Draft, FolderError>
        ensures { IfOk result IsEmptyDraft }
    {
        refuse_special(rt, path)?;
        Ok(Draft {
            file: File::create(rt, path)?,
            taken: 0,
            synced: false,
        })
    }

    /// Writes all of these bytes.
    pub(crate) fn write_all(&mut self, bytes: &[u8]) -> Result<(), FolderError>
        requires { IsEmptyDraft self.old }
        ensures { OnOk result (HasTaken (length bytes.now) self.new) }
    {
        let mut sink = WriteSink::new(&self.file);
        let mut rest = bytes;
        while !rest.is_empty() {
            let count = sink.write(rest)?;
            rest = &rest[count..];
        }
        self.taken = bytes.len() - rest.len();
        Ok(())
    }

    /// Makes what was written last.
    pub(crate) fn sync(&mut self) -> Result<(), FolderError>
        ensures { OnOk result (IsSynced self.old self.new) }
    {
        self.file.sync_all()?;
        self.synced = true;
        Ok(())
    }

    /// Takes another path, in place of the file that had it. The draft has these bytes.
    pub(crate) fn rename<R: Files>(
        self,
        rt: &R,
        from: &str,
        to: &str,
        bytes: &[u8],
    ) -> io::Result<()>
        requires whole { HasTaken (length bytes.now) self }
        requires synced { self.synced ≡ true }
        requires apart { from.now ≢ to.now }
    {
        let _bytes = bytes;
        fs::rename(rt, from, to)
    }
}
