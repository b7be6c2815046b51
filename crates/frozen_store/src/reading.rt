// The objects of a closed region, read from the words of their contents.
ghost use Rattle.std.specs.Prelude.{◌≡◌, take, IfOk};
ghost use Rattle.cas_model.specs.Content.{bytes_of};
ghost use Rattle.region_core.specs.Leads.{digests_there, object_there};
ghost use Rattle.frozen_store.specs.Reads.{HasContentAt, ArePlacesWithin};

use cas_model::{Data, Digest, Object, Refs};
use region_core::{record_digest, split_head};
use std::alloc::{AllocError, AllocFailed, Global};

/// The digests of the records at these places.
fn digests_at(
    alloc: Global,
    words: &[u64],
    places: &[u64],
) -> Result<Vec<Digest>, AllocFailed<Digest>>
    requires { ArePlacesWithin words.now places.now }
    ensures { IfOk result (λ digests. digests.items ≡ digests_there words.now places.now) }
{
    let mut digests = Vec::new(alloc);
    for place in places {
        digests.push(record_digest(words, *place as usize))?;
    }
    Ok(digests)
}

/// The bytes of data of this length, in words of eight bytes, the low one first.
fn bytes_at(alloc: Global, words: &[u64], length: usize) -> Result<Vec<u8>, AllocError>
    ensures { IfOk result (λ bytes. bytes.items ≡ take length (bytes_of words.now)) }
{
    let mut bytes = Vec::new(alloc);
    for word in words {
        bytes.extend_from_slice(word.to_le_bytes().as_slice())?;
    }
    bytes.truncate(length);
    Ok(bytes)
}

/// The object whose content is at a place.
pub(crate) fn object_at(alloc: Global, words: &[u64], place: usize) -> Result<Object, AllocError>
    requires { HasContentAt words.now place }
    ensures { IfOk result (λ object. object ≡ object_there words.now place) }
{
    let (refs, length) = split_head(words[place]);
    let first = place + 1;
    let after = first + refs as usize;
    let end = after + length.div_ceil(8) as usize;
    let digests = digests_at(alloc, words, &words[first..after])?;
    let bytes = bytes_at(alloc, &words[after..end], length as usize)?;
    Ok(Object {
        refs: Refs::of(alloc, digests.as_slice())?,
        data: Data::of(alloc, bytes.as_slice())?,
    })
}
