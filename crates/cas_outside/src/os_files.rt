// Work on the files of a folder of the system.
ghost use Rattle.std.specs.Prelude.{◌≡◌, ◌<◌, ◌≤◌, ◌+◌, ◌-◌, ◌^◌, length, string_bytes, IfOk};
ghost use Rattle.cas_outside.specs.Folder.{MayAsk};
ghost use Rattle.cas_outside.specs.MemFolder.{is_free_name};
ghost use Rattle.cas_outside.specs.OsFiles.{path_in, ListsFreeNames, LockAnswers};
ghost use Rattle.cas_outside.specs.Reading.{ReadsFront};

use crate::os_draft::Draft;
use crate::{FolderError, Name, ReadSource, Source};
use std::alloc::{AllocError, Global};
use std::fs::{self, File, OpenOptions, TryLockError};
use std::io::{self, ErrorKind};
use std::rt::Files;

// How many bytes are asked of a file at once.
const BLOCK: usize = 65_536;

// The path of a name in a folder.
fn path_in(alloc: Global, dir: &str, name: &str) -> Result<String, AllocError>
    ensures { IfOk result (λ path. string_bytes path ≡ path_in dir.now name.now) }
{
    format!(in alloc; "{dir}/{name}")
}

// A name that the folder is asked for is text.
fn text_of(name: &Name) -> Result<&str, FolderError>
    ensures { IfOk result (λ text. text.now ≡ name.now) }
{
    match str::from_utf8(name.list()) {
        Ok(text) => Ok(text),
        Err(_) => Err(FolderError::Failed),
    }
}

/// Makes a folder and those above it, where they are missing.
pub(crate) fn make_folder<R: Files>(rt: &R, dir: &str) -> Result<(), FolderError> {
    // std makes nothing of an empty path, and says that all is well.
    if dir.is_empty() {
        return Err(FolderError::Failed);
    }
    fs::create_dir_all(rt, dir)?;
    Ok(())
}

/// Refuses a path at which something else than a file stands: to open a pipe would wait for its other end.
pub(crate) fn refuse_special<R: Files>(rt: &R, path: &str) -> Result<(), FolderError> {
    match fs::metadata(rt, path) {
        Ok(found) if found.is_file() => Ok(()),
        Ok(_) => Err(FolderError::Failed),
        Err(error) if error.kind() == ErrorKind::NotFound => Ok(()),
        Err(error) => Err(error.into()),
    }
}

/// The locked file `lock`, or none where another open of it has the lock.
pub(crate) fn take_lock<R: Files<File = File> + AllocGlobal>(
    rt: &R,
    dir: &str,
) -> Result<Option<File>, FolderError> {
    let path = path_in(rt.alloc(), dir, "lock")?;
    refuse_special(rt, path.as_str())?;
    let file = OpenOptions::new()
        .write(true)
        .create(true)
        .open(rt, path.as_str())?;
    let tried = file.try_lock();
    lock_of(file, tried)
}

// The locked file, or none where another open of it has the lock.
fn lock_of(file: File, tried: Result<(), TryLockError>) -> Result<Option<File>, FolderError>
    ensures { LockAnswers file tried result }
{
    match tried {
        Ok(()) => Ok(Some(file)),
        Err(TryLockError::WouldBlock) => Ok(None),
        Err(TryLockError::Error(error)) => Err(error.into()),
    }
}

// Whether a name is not one of the folder's own two.
fn is_free(name: &str) -> bool
    ensures { result ≡ is_free_name name.now }
{
    !(name == "lock" || name == "tmp")
}

/// All names of the folder but its own two.
pub(crate) fn list_names<R: Files + AllocGlobal + Clone + Drop>(
    rt: &R,
    dir: &str,
) -> Result<Vec<Name>, FolderError>
    ensures { IfOk result (λ names. ListsFreeNames names.items) }
{
    let mut names = Vec::new(rt.alloc());
    for entry in fs::read_dir(rt, dir)? {
        let entry = entry?;
        let name = entry.file_name();
        if is_free(name) {
            let name = Name::of(rt.alloc(), name.as_bytes())?;
            names.push(name).map_err(AllocError::from)?;
        }
    }
    Ok(names)
}

/// The first bytes of a file, one more than the limit at most.
pub(crate) fn read_file<R: Files<File = File> + AllocGlobal>(
    rt: &R,
    dir: &str,
    name: &Name,
    most: u64,
) -> Result<Vec<u8>, FolderError>
    requires { most < 2 ^ 64 - 1 }
    ensures { IfOk result (λ bytes. length bytes.items ≤ most + 1) }
{
    let path = path_in(rt.alloc(), dir, text_of(name)?)?;
    if !fs::metadata(rt, path.as_str())?.is_file() {
        return Err(FolderError::Failed);
    }
    let mut source = ReadSource::new(File::open(rt, path.as_str())?);
    let mut block = vec![in rt.alloc(); 0; BLOCK]?;
    read_front(rt.alloc(), &mut source, most + 1, &mut block)
}

// The first bytes of a source, at most so many, through this block.
fn read_front<S: Source>(
    alloc: Global,
    source: &mut S,
    limit: u64,
    block: &mut [u8],
) -> Result<Vec<u8>, FolderError>
    requires { 0 < length block.old }
    ensures most { IfOk result (λ bytes. length bytes.items ≤ limit) }
    ensures front { IfOk result (λ bytes. ReadsFront limit (S.view source.old).left bytes.items) }
{
    let most = limit as usize;
    let mut front = Vec::new(alloc);
    while front.len() < most {
        let room = (most - front.len()).min(block.len());
        let count = source.read(&mut block[..room])?;
        if count == 0 {
            return Ok(front);
        }
        front.extend_from_slice(&block[..count])?;
    }
    Ok(front)
}

// Makes the names of a folder last.
fn sync_folder<R: Files<File = File>>(rt: &R, dir: &str) -> io::Result<()> {
    File::open(rt, dir)?.sync_all()
}

/// Gives a file these bytes: they are written to `tmp` and synced before it takes the file's name.
pub(crate) fn put_file<R: Files<File = File> + AllocGlobal>(
    rt: &R,
    dir: &str,
    name: &Name,
    bytes: &[u8],
) -> Result<(), FolderError>
    requires { MayAsk name.now }
{
    let path = path_in(rt.alloc(), dir, text_of(name)?)?;
    let tmp = path_in(rt.alloc(), dir, "tmp")?;
    let mut draft = Draft::create(rt, tmp.as_str())?;
    draft.write_all(bytes)?;
    draft.sync()?;
    let renamed = draft.rename(rt, tmp.as_str(), path.as_str(), bytes);
    // The file may have its new bytes, so want of memory is no answer.
    if renamed.is_err() || sync_folder(rt, dir).is_err() {
        return Err(FolderError::Failed);
    }
    Ok(())
}

/// Removes a file.
pub(crate) fn remove_file<R: Files<File = File> + AllocGlobal>(
    rt: &R,
    dir: &str,
    name: &Name,
) -> Result<(), FolderError> {
    let path = path_in(rt.alloc(), dir, text_of(name)?)?;
    // The file may be gone, so want of memory is no answer.
    if fs::remove_file(rt, path.as_str()).is_err() || sync_folder(rt, dir).is_err() {
        return Err(FolderError::Failed);
    }
    Ok(())
}
