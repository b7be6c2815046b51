// The removal of the generations that no command reads.
ghost use Rattle.std.specs.Prelude.{◌≡◌, IfOk, IfErr, OnOk};
ghost use Rattle.cas_outside.specs.Folder.{MayEnter};
ghost use Rattle.cas_command.specs.Pruning.{EnteringStops, HasEntered, PrunePrepares, PruneRefuses, pruned_line};

use crate::answer::Answer;
use crate::output::Output;
use cas_outside::{Folder, FolderError};
use generations::{SaveError, prune};
use std::alloc::{AllocError, Global};

/// Enters the folder at a path, takes its lock, and removes the generations that no command reads. The output tells how
/// many there were. No image is read.
pub fn prune_text<F: Folder>(alloc: Global, folder: &mut F, dir: &str) -> Result<Output, Answer>
    requires { MayEnter (F.view folder.old) }
    ensures ok { IfOk result (λ output. PrunePrepares dir.now (F.view folder.old) (F.view folder.new) output) }
    ensures err { IfErr result (λ answer. PruneRefuses dir.now (F.view folder.old) (F.view folder.new) answer) }
{
    enter_locked(folder, dir)?;
    match prune(alloc, folder) {
        Ok(count) => Ok(Output::Text(pruned_text(alloc, count)?)),
        Err(SaveError::FolderFault) => Err(Answer::FolderFault),
        Err(SaveError::Memory) => Err(Answer::NoMemory),
    }
}

// Enters the folder at a path, and takes its lock.
fn enter_locked<F: Folder>(folder: &mut F, dir: &str) -> Result<(), Answer>
    requires { MayEnter (F.view folder.old) }
    ensures ok { OnOk result (HasEntered dir.now (F.view folder.old) (F.view folder.new)) }
    ensures err { IfErr result (λ answer. EnteringStops dir.now (F.view folder.old) (F.view folder.new) answer) }
{
    match folder.enter(dir) {
        Ok(()) => {}
        Err(FolderError::Failed) => return Err(Answer::FolderFault),
        Err(FolderError::Memory) => return Err(Answer::NoMemory),
    }
    match folder.try_lock() {
        Ok(true) => Ok(()),
        Ok(false) => Err(Answer::Held),
        Err(FolderError::Failed) => Err(Answer::FolderFault),
        Err(FolderError::Memory) => Err(Answer::NoMemory),
    }
}

// The line that tells how many generations were removed.
fn pruned_text(alloc: Global, count: u64) -> Result<Vec<u8>, AllocError>
    ensures { IfOk result (λ text. text.items ≡ pruned_line count) }
{
    let line = format!(in alloc; "pruned {count}\n")?;
    Ok(line.into_bytes())
}
