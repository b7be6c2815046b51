// A new generation above the primary.
ghost use Rattle.std.specs.Prelude.{◌≡◌, ◌≤◌, ◌<◌, ◌+◌, ◌↔◌, IsTrue, true};
ghost use Rattle.generations.specs.GenerationNames.{generation_name};
ghost use Rattle.generations.specs.Rotation.{NeedsRotation};
ghost use Rattle.generations.specs.Saved.{ChangedOnce, Saves};

use crate::saving::{SaveError, save};
use cas_outside::Folder;
use std::alloc::Global;

/// How many bytes a word has.
const WORD: u64 = 8;

/// Whether the store is to go on in a new generation: where a call found the region full, or where a limit is given, in
/// bytes, and the words in use take more than half of it, rounded down. As in LLVM's store, the limit is one for the
/// primary and the upstream together, and each may have half of it.
pub fn needs_rotation(used: u64, limit: Option<u64>, full_seen: bool) -> bool
    requires { used ≤ 67108864 }
    ensures { IsTrue result ↔ NeedsRotation used limit full_seen }
{
    full_seen || limit.is_some_and(|limit| WORD * used > limit / 2)
}

/// Puts the image of an empty region into the folder as a generation above the primary, whose number is given. From then
/// on the former primary is the upstream, and its file is as it was. After `FolderFault` the new generation is there or
/// not, after `Memory` it is not. No other file changes. The folder counts one change, and after `Memory` one
/// at most.
pub fn rotate<F: Folder>(
    alloc: Global,
    folder: &mut F,
    number: u32,
    empty: &[u8],
) -> Result<(), SaveError>
    requires locked { (F.view folder.old).locked ≡ true }
    requires room { number < 4294967295 }
    ensures saves { Saves (generation_name (number + 1)) empty.now (F.view folder.old) (F.view folder.new) result }
    ensures once { ChangedOnce (F.view folder.old) (F.view folder.new) result }
{
    save(alloc, folder, number + 1, empty)
}
