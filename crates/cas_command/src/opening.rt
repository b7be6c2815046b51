// Opening the folder.
ghost use Rattle.std.specs.Prelude.{◌≡◌, ◌≤◌, IfOk, IfErr};
ghost use Rattle.cas_outside.specs.Folder.{MayEnter};
ghost use Rattle.cas_command.specs.Opening.{HasOpened, OpeningStops, open_answer};

use crate::answer::Answer;
use cas_outside::{Folder, FolderError};
use generations::{OpenError, Opened, open_folder};
use std::alloc::Global;

/// Enters the folder at a path, takes its lock, and reads its generations. Where there are none, the primary is an empty
/// region of this size, in words.
pub fn open<F: Folder>(
    alloc: Global,
    folder: &mut F,
    dir: &str,
    size: u64,
) -> Result<Opened, Answer>
    requires enters { MayEnter (F.view folder.old) }
    requires least { 4096 ≤ size }
    requires most { size ≤ 67108864 }
    ensures ok { IfOk result (λ opened. HasOpened dir.now size (F.view folder.old) (F.view folder.new) opened) }
    ensures err { IfErr result (λ answer. OpeningStops dir.now (F.view folder.old) (F.view folder.new) answer) }
{
    match folder.enter(dir) {
        Ok(()) => {}
        Err(FolderError::Failed) => return Err(Answer::FolderFault),
        Err(FolderError::Memory) => return Err(Answer::NoMemory),
    }
    match open_folder(alloc, folder, size) {
        Ok(opened) => Ok(opened),
        Err(error) => Err(answer_of(error)),
    }
}

// The answer where the folder was not opened.
fn answer_of(error: OpenError) -> Answer
    ensures { result ≡ open_answer error }
{
    match error {
        OpenError::Held => Answer::Held,
        OpenError::FolderFault => Answer::FolderFault,
        OpenError::Damaged { name, error } => Answer::Damaged { name, error },
        OpenError::Memory => Answer::NoMemory,
    }
}
