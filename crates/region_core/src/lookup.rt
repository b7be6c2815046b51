// The record of a digest, found by the descent along its indexes.
ghost use Rattle.std.specs.Prelude.{◌≡◌, ◌≢◌, ℕ, ◌+◌, ◌<◌, length, slice_index, IsTrue, ◌↔◌, MatchOption};
ghost use Rattle.cas_model.specs.Trie.{IsDigest};
ghost use Rattle.region_core.specs.Heap.{Block, Laid, memory_of};
ghost use Rattle.region_core.specs.Holds.{Looked};
ghost use Rattle.region_core.specs.Inserts.{Region};
ghost use Rattle.region_core.specs.Words.{root, words_of, slot_word, HasWords};

use crate::Slot;
use crate::word::{digest_of_words, digest_words, index_at};
use cas_model::{Digest, Place, Space};

/// The place where the root of a trie begins.
pub fn root_of(space: Space) -> u64
    ensures { result ≡ root space }
{
    match space {
        Space::Objects => 8,
        Space::Actions => 264,
    }
}

/// What stands in a slot.
pub(crate) fn slot_at(words: &[u64], at: usize) -> Option<Slot>
    requires { at < length words.now }
    ensures { MatchOption result ((slot : Slot) → slot_word slot ≢ slice_index words.now at) (λ slot. slot_word slot ≡ slice_index words.now at) }
{
    Slot::of(words[at])
}

/// Whether the record at a place has these words as its digest.
fn is_digest(words: &[u64], place: usize, own: &[u64; 4]) -> bool
    requires { place + 4 < length words.now }
    ensures { IsTrue result ↔ HasWords words.now place own.now }
{
    words[place] == own[0]
        && words[place + 1] == own[1]
        && words[place + 2] == own[2]
        && words[place + 3] == own[3]
}

/// The digest of the record at a place.
pub fn record_digest(words: &[u64], place: usize) -> Digest
    requires { place + 4 < length words.now }
    ensures words { HasWords words.now place (words_of result.bytes) }
    ensures fits { IsDigest result.bytes }
{
    let digest = digest_of_words([
        words[place],
        words[place + 1],
        words[place + 2],
        words[place + 3],
    ]);
    let _words = digest_words(&digest);
    digest
}

/// The place of a digest's record in a trie, and None where it has none. The words are those of a region up to
/// its counter. It reads one slot a level, at most 63.
pub fn look(words: &[u64], space: Space, digest: &Digest) -> Option<Place>
    requires { Region words.now }
    ensures { (heap : ℕ → Block) → Laid heap (memory_of words.now) (length words.now) → Looked heap space digest.now.bytes result }
{
    let own = digest_words(digest);
    let mut table = root_of(space);
    for level in 0..63u32 {
        let index = index_at(digest, level);
        match slot_at(words, (table + index) as usize) {
            Some(Slot::Subtrie(place)) => table = place.at,
            Some(Slot::Record(place)) => {
                let same = is_digest(words, place.at as usize, &own);
                return if same { Some(place) } else { None };
            }
            Some(Slot::Empty) => return None,
            None => return None,
        }
    }
    None
}
