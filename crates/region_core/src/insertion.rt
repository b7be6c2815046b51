// A record is put into a trie.
ghost use Rattle.std.specs.Prelude.{◌≡◌, ◌≢◌, ℕ, ◌+◌, ◌*◌, ◌<◌, ◌≤◌, ◌++◌, List, length, slice_set, IfOk, OnOk, IfErr, MatchResult};
ghost use Rattle.cas_model.specs.Trie.{IsDigest, index_of};
ghost use Rattle.region_core.specs.declared.insertion.BuildError.TheVariants.{Memory};
ghost use Rattle.region_core.specs.Words.{words_of, HasWords, one_slot};
ghost use Rattle.region_core.specs.Inserts.{Way, Stepped, Inserts, CanInsert, RefusesClaim, RefusesStep, RefusesInsert, SameHead};

use crate::Slot;
use crate::lookup::{record_digest, root_of, slot_at};
use crate::word::{digest_words, index_at};
use cas_model::{Digest, Full, Place, Space};
use std::alloc::{AllocError, AllocFailed};
use thiserror::Error;

/// Why nothing was built.
#[derive(Clone, Copy, Debug, PartialEq, Eq, Drop, Error)]
pub enum BuildError {
    /// A claim passes the end of the region.
    #[error("{0}")]
    Full(Full),
    /// There is no memory.
    #[error("no memory")]
    Memory,
}

impl From<AllocError> for BuildError {
    ghost from_gives = { λ _ e. e ≡ Memory };

    fn from(_error: AllocError) -> BuildError {
        BuildError::Memory
    }
}

impl<T: Drop> From<AllocFailed<T>> for BuildError {
    ghost from_gives = { λ _ e. e ≡ Memory };

    fn from(_error: AllocFailed<T>) -> BuildError {
        BuildError::Memory
    }
}

/// Whether a block of `asked` words at a place ends within the size.
pub(crate) fn claim(at: u64, asked: u64, size: u64) -> Result<(), BuildError>
    requires at { at ≤ 67108864 }
    requires asked { asked ≤ 67108864 }
    ensures { MatchResult result (λ _. at + asked ≤ size) (λ error. RefusesClaim at asked size error) }
{
    if size < at + asked {
        return Err(BuildError::Full(Full { at, asked, size }));
    }
    Ok(())
}

/// Claims a block and writes its words. The answer is its place.
fn push_block(words: &mut Vec<u64>, size: u64, block: &[u64]) -> Result<u64, BuildError>
    requires size { size ≤ 67108864 }
    requires fits { length words.old.items ≤ size }
    requires short { length block.now ≤ 16 }
    ensures place { IfOk result (λ place. place ≡ length words.old.items) }
    ensures words { OnOk result (words.new.items ≡ words.old.items ++ block.now) }
    ensures within { OnOk result (length words.new.items ≤ size) }
    ensures refused { IfErr result (λ error. RefusesClaim (length words.old.items) (length block.now) size error) }
{
    let place = words.len() as u64;
    claim(place, block.len() as u64, size)?;
    words.extend_from_slice(block)?;
    Ok(place)
}

/// Makes a subtrie with the record of a slot in it, and lets the slot name it.
fn push_down(
    words: &mut Vec<u64>,
    size: u64,
    slot: usize,
    record_at: u64,
    level: u32,
) -> Result<u64, BuildError>
    requires size { size ≤ 67108864 }
    requires fits { length words.old.items ≤ size }
    requires level { level ≤ 62 }
    requires deep { 0 < level }
    requires slot { slot < length words.old.items }
    requires low { 8 ≤ slot }
    requires place { record_at + 4 < length words.old.items }
    ensures place { IfOk result (λ place. place ≡ length words.old.items) }
    ensures words { OnOk result ((d : List ℕ) → IsDigest d → HasWords words.old.items record_at (words_of d) → words.new.items ≡ slice_set (words.old.items ++ one_slot (index_of d level) (4 * record_at + 1)) slot (4 * length words.old.items + 2)) }
    ensures within { OnOk result (length words.new.items ≤ size) }
    ensures head { OnOk result (SameHead words.old.items words.new.items) }
    ensures refused { IfErr result (λ error. RefusesClaim (length words.old.items) 16 size error) }
{
    let digest = record_digest(words, record_at as usize);
    let index = index_at(&digest, level) as usize;
    let mut block = [0u64; 16];
    block[index] = 4 * record_at + 1;
    let place = push_block(words, size, &block)?;
    words[slot] = 4 * place + 2;
    Ok(place)
}

/// The table one level down on a digest's way, and none where its slot is empty.
fn step(
    words: &mut Vec<u64>,
    size: u64,
    digest: &Digest,
    level: u32,
    table: u64,
) -> Result<Option<u64>, BuildError>
    requires size { size ≤ 67108864 }
    requires fits { length words.old.items ≤ size }
    requires level { level < 63 }
    requires way { Way words.old.items digest.now level table }
    ensures stepped { IfOk result (λ next. Stepped words.old.items words.new.items digest.now level table next) }
    ensures within { OnOk result (length words.new.items ≤ size) }
    ensures head { OnOk result (SameHead words.old.items words.new.items) }
    ensures refused { IfErr result (λ error. RefusesStep words.old.items digest.now level table size error) }
{
    let _own = digest_words(digest);
    let slot = (table + index_at(digest, level)) as usize;
    match slot_at(words, slot) {
        Some(Slot::Empty) => Ok(None),
        Some(Slot::Subtrie(next)) => Ok(Some(next.at)),
        Some(Slot::Record(other)) => {
            let next = push_down(words, size, slot, other.at, level + 1)?;
            Ok(Some(next))
        }
        None => unreachable!(),
    }
}

/// Puts the record of a digest that has none into a trie: its five words, then the subtries that it needs, from
/// the root down. The answer is its place.
pub(crate) fn insert_record(
    words: &mut Vec<u64>,
    size: u64,
    space: Space,
    digest: &Digest,
) -> Result<Place, BuildError>
    requires size { size ≤ 67108864 }
    requires fits { length words.old.items ≤ size }
    requires can { CanInsert words.old.items space digest.now }
    ensures place { IfOk result (λ place. place.at ≡ length words.old.items) }
    ensures inserted { IfOk result (λ place. Inserts words.old.items words.new.items space digest.now place.at) }
    ensures within { OnOk result (length words.new.items ≤ size) }
    ensures head { OnOk result (SameHead words.old.items words.new.items) }
    ensures refused { IfErr result (λ error. RefusesInsert words.old.items size space digest.now error) }
{
    let own = digest_words(digest);
    let place = push_block(words, size, &[own[0], own[1], own[2], own[3], 0])?;
    let mut table = root_of(space);
    for level in 0..63u32 {
        match step(words, size, digest, level, table)? {
            Some(next) => table = next,
            None => {
                let slot = (table + index_at(digest, level)) as usize;
                words[slot] = 4 * place + 1;
                return Ok(Place { at: place });
            }
        }
    }
    unreachable!()
}
