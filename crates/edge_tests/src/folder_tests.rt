// Folders: the one in memory with calls that fail and locks that are held, and the one of the system.
ghost use Rattle.std.specs.Prelude.{◌≡◌, true, None, IfOk, OnOk};
ghost use Rattle.cas_outside.specs.Folder.{MayAsk};
ghost use Rattle.cas_outside.specs.OsFolder.{os_view};

use cas_outside::{Bytes, Folder, FolderError, MemFolder, Name, OsFolder};
use std::alloc::{AllocError, Global};
use std::test::Fail;
use std::{env, fs, io, process};

// Enters and locks.
fn open(folder: &mut MemFolder) -> Result<bool, FolderError>
    requires { folder.old.asked ≡ None }
    ensures entered { OnOk result (folder.new.entered ≡ true) }
    ensures locked { result ≡ Ok true → folder.new.locked ≡ true }
{
    folder.enter("store")?;
    folder.try_lock()
}

// Six calls: enters, locks, gives a file its bytes, lists, and reads and removes it. The first that fails ends it.
fn run(folder: &mut MemFolder, name: &Name) -> Result<Bytes, FolderError>
    requires fresh { folder.old.asked ≡ None }
    requires name { MayAsk name.now }
{
    if !open(folder)? {
        return Err(FolderError::Failed);
    }
    folder.replace(name, b"hello")?;
    let _names = folder.names()?;
    let bytes = folder.read(name, 3)?;
    folder.remove(name)?;
    Ok(bytes)
}

// A folder in memory, of whose calls one fails.
fn failing(alloc: Global, call: u64) -> Result<MemFolder, AllocError>
    ensures { IfOk result (λ folder. folder.asked ≡ None) }
{
    Ok(MemFolder::new([call].to_vec(alloc)?, Vec::new(alloc)))
}

#[test]
fn a_folder_in_memory_keeps_its_files(rt: HostRuntime) -> Result<(), Fail> {
    let alloc = rt.alloc();
    let mut folder = MemFolder::new(Vec::new(alloc), Vec::new(alloc));
    folder.set_file(b"v1.2", b"old")?;
    folder.set_file(b"notes", b"")?;
    assert_eq!(rt; open(&mut folder), Ok(true));
    folder.replace(&Name::of(alloc, b"v1.2")?, b"hello")?;
    folder.replace(&Name::of(alloc, b"v1.10")?, b"more")?;
    assert_eq!(rt; folder.file(b"v1.2"), Some(b"hello".as_slice()));
    assert_eq!(rt; folder.file(b"v1.1"), None);
    let mut names = folder.names()?.into_iter();
    for want in ["notes", "v1.10", "v1.2"] {
        let name = names.next().ok_or("a name")?;
        assert_eq!(rt; name.list(), want.as_bytes());
    }
    assert!(rt; names.next().is_none());
    Ok(())
}

#[test]
fn each_call_in_memory_fails_in_turn(rt: HostRuntime) -> Result<(), Fail> {
    let alloc = rt.alloc();
    let name = Name::of(alloc, b"v1.1")?;
    for call in 1..=6 {
        let mut folder = failing(alloc, call)?;
        assert_eq!(rt;
            run(&mut folder, &name).err(),
            Some(FolderError::Failed),
            "call {call}"
        );
        assert_eq!(rt; folder.file(b"v1.1").is_some(), call > 3, "call {call}");
    }
    let mut folder = failing(alloc, 7)?;
    assert_eq!(rt; run(&mut folder, &name)?.list(), b"hell".as_slice());
    assert_eq!(rt; folder.file(b"v1.1"), None);
    Ok(())
}

#[test]
fn a_lock_in_memory_is_held_and_left(rt: HostRuntime) -> Result<(), Fail> {
    let alloc = rt.alloc();
    let mut folder = MemFolder::new(Vec::new(alloc), [2, 4].to_vec(alloc)?);
    assert_eq!(rt; open(&mut folder), Ok(false));
    assert_eq!(rt; folder.try_lock(), Ok(true));
    assert_eq!(rt; folder.try_lock(), Ok(true));
    folder.replace(&Name::of(alloc, b"v1.1")?, b"hello")?;
    folder.leave();
    assert_eq!(rt; open(&mut folder), Ok(true));
    assert_eq!(rt; folder.file(b"v1.1"), Some(b"hello".as_slice()));
    Ok(())
}

// A path of this test's own below the system's folder for temporary files.
fn temporary(rt: &HostRuntime, test: &str) -> io::Result<String> {
    let root = env::temp_dir(rt)?;
    let root = root.as_path().display();
    let id = process::id(rt.process());
    Ok(format!(in rt.alloc(); "{root}/cas-outside-{id}-{test}")?)
}

// A folder of the system, entered and locked.
fn opened(rt: &HostRuntime, dir: &str) -> Result<OsFolder<HostRuntime>, FolderError>
    ensures { IfOk result (λ folder. (os_view folder.state).locked ≡ true) }
{
    let mut folder = OsFolder::new(rt.clone()?);
    folder.enter(dir)?;
    if !folder.try_lock()? {
        return Err(FolderError::Failed);
    }
    Ok(folder)
}

#[test]
fn a_folder_of_the_system_keeps_its_files(rt: HostRuntime) -> Result<(), Fail> {
    let root = temporary(&rt, "keeps")?;
    let dir = format!(in rt.alloc(); "{root}/a/b")?;
    let mut folder = opened(&rt, dir.as_str())?;
    let name = Name::of(rt.alloc(), b"v1.1")?;
    folder.replace(&name, b"old")?;
    folder.replace(&name, b"hello")?;
    assert_eq!(rt; folder.names()?.len(), 1);
    assert_eq!(rt; folder.read(&name, 3)?.list(), b"hell".as_slice());
    assert_eq!(rt; folder.read(&name, 99)?.list(), b"hello".as_slice());
    folder.remove(&name)?;
    assert_eq!(rt; folder.remove(&name), Err(FolderError::Failed));
    fs::remove_dir_all(&rt, root.as_str())?;
    Ok(())
}

#[test]
fn a_folder_of_the_system_is_locked_and_refuses(rt: HostRuntime) -> Result<(), Fail> {
    let root = temporary(&rt, "refuses")?;
    let mut folder = opened(&rt, root.as_str())?;
    let mut other = OsFolder::new(rt.clone()?);
    assert_eq!(rt; other.enter(root.as_str()), Ok(()));
    assert_eq!(rt; other.try_lock(), Ok(false));
    assert_eq!(rt;
        OsFolder::new(rt.clone()?).enter(""),
        Err(FolderError::Failed)
    );
    let inner = format!(in rt.alloc(); "{root}/v1.1")?;
    fs::create_dir(&rt, inner.as_str())?;
    assert_eq!(rt; folder.names()?.len(), 1);
    assert!(rt; folder.read(&Name::of(rt.alloc(), b"v1.1")?, 3).is_err());
    fs::remove_dir_all(&rt, root.as_str())?;
    Ok(())
}
