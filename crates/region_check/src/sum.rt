// The digest of a content's object, from its words.
ghost use Rattle.std.specs.Prelude.{◌≡◌, ℕ, ◌+◌, ◌/◌, ◌++◌, ◌<◌, ◌≤◌, List, length, slice_index, take};
ghost use Rattle.cas_model.specs.Content.{bytes_of};
ghost use Rattle.cas_model.specs.Object.{object_digest, ref_bytes};
ghost use Rattle.region_core.specs.Leads.{digests_there, object_there};
ghost use Rattle.sha2.specs.Hashers.{Holds256};
ghost use Rattle.region_check.specs.Sums.{Fits, AreWithin};

use byteorder::{ByteOrder, LittleEndian};
use cas_model::Digest;
use region_core::{record_digest, split_head};
use sha2::{Digest as _, Sha256};

/// How many bytes are hashed at a time. A hasher takes long pieces faster than single words.
const PIECE: usize = 256;

/// The words of these bytes.
const PIECE_WORDS: usize = 32;

/// Hashes the digests of the records at these places.
fn hash_references(hasher: &mut Sha256, words: &[u64], places: &[u64])
    requires { AreWithin words.now places.now }
    ensures { (m : List ℕ) → Holds256 hasher.old m → Holds256 hasher.new (m ++ ref_bytes (digests_there words.now places.now)) }
{
    for place in places {
        hasher.update(record_digest(words, *place as usize).bytes);
    }
}

/// Hashes so many bytes of data, one piece at most.
fn hash_piece(hasher: &mut Sha256, words: &[u64], count: usize)
    requires long { length words.now ≡ (count + 7) / 8 }
    requires short { count ≤ 256 }
    ensures { (m : List ℕ) → Holds256 hasher.old m → Holds256 hasher.new (m ++ take count (bytes_of words.now)) }
{
    let mut bytes = [0; PIECE];
    LittleEndian::write_u64_into(words, &mut bytes[..8 * words.len()]);
    hasher.update(&bytes[..count]);
}

/// Hashes so many bytes of data, in words of eight bytes, the low one first.
fn hash_data(hasher: &mut Sha256, words: &[u64], count: usize)
    requires { length words.now ≡ (count + 7) / 8 }
    ensures { (m : List ℕ) → Holds256 hasher.old m → Holds256 hasher.new (m ++ take count (bytes_of words.now)) }
{
    let whole = count / PIECE;
    for piece in 0..whole {
        let first = PIECE_WORDS * piece;
        hash_piece(hasher, &words[first..first + PIECE_WORDS], PIECE);
    }
    hash_piece(hasher, &words[PIECE_WORDS * whole..], count % PIECE);
}

/// The digest of the object whose content is at a place.
pub(crate) fn content_digest(words: &[u64], place: usize) -> Digest
    requires fits { Fits words.now place }
    requires short { length words.now ≤ 67108864 }
    ensures { result ≡ object_digest (object_there words.now place) }
{
    let (refs, length) = split_head(words[place]);
    let first = place + 1;
    let after = first + refs as usize;
    let end = after + length.div_ceil(8) as usize;
    let mut hasher = Sha256::new();
    hasher.update(refs.to_le_bytes());
    hash_references(&mut hasher, words, &words[first..after]);
    hasher.update(length.to_le_bytes());
    hash_data(&mut hasher, &words[after..end], length as usize);
    Digest {
        bytes: hasher.finalize(),
    }
}
