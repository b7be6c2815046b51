// Whether a digest leads to a slot.
ghost use Rattle.std.specs.Prelude.{◌≡◌, ℕ, ◌<◌, ◌≤◌, length, IsTrue, ◌↔◌};
ghost use Rattle.region_check.specs.Shown.{LeadsTo};

use crate::naming::table_at;
use cas_model::{Digest, Space};
use region_core::{index_at, root_of};

/// Whether a digest leads to a slot of a trie. It reads one slot a level, at most 63.
pub(crate) fn leads_to(words: &[u64], space: Space, digest: &Digest, slot: usize) -> bool
    requires { 520 ≤ length words.now }
    ensures { IsTrue result ↔ LeadsTo words.now space digest.now slot }
{
    let mut table = root_of(space) as usize;
    for level in 0..63u32 {
        let at = table + index_at(digest, level) as usize;
        if at == slot {
            return true;
        }
        match table_at(words, at) {
            Some(next) => table = next as usize,
            None => return false,
        }
    }
    false
}
