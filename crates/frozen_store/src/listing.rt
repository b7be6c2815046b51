// The contents of a closed region, in an order in which they can be stored again.
ghost use Rattle.std.specs.Prelude.{◌≡◌, IfOk};
ghost use Rattle.frozen_store.specs.Lists.{AreContentPlaces, AreKeys, AreObjects};
ghost use Rattle.frozen_store.specs.Reads.{IsWhole};

use crate::reading::object_at;
use crate::walk::filled_records;
use cas_model::{Digest, Object, Space};
use region_core::record_digest;
use std::alloc::{AllocError, Global};

/// The places of the contents of the present objects, the lowest first.
fn content_places(alloc: Global, words: &[u64]) -> Result<Vec<u64>, AllocError>
    requires { IsWhole words.now }
    ensures { IfOk result (λ places. AreContentPlaces words.now places.items) }
{
    let owners = filled_records(alloc, words, Space::Objects)?;
    let mut places = Vec::new(alloc);
    for owner in &owners {
        places.push(words[*owner as usize + 4])?;
    }
    places.sort_unstable();
    Ok(places)
}

/// The present objects, by rising place of their content.
pub(crate) fn objects_of(alloc: Global, words: &[u64]) -> Result<Vec<Object>, AllocError>
    requires { IsWhole words.now }
    ensures { IfOk result (λ objects. AreObjects words.now objects.items) }
{
    let places = content_places(alloc, words)?;
    let mut objects = Vec::new(alloc);
    for place in &places {
        objects.push(object_at(alloc, words, *place as usize)?)?;
    }
    Ok(objects)
}

/// The present keys, by rising digest.
pub(crate) fn keys_of(alloc: Global, words: &[u64]) -> Result<Vec<Digest>, AllocError>
    requires { IsWhole words.now }
    ensures { IfOk result (λ keys. AreKeys words.now keys.items) }
{
    let owners = filled_records(alloc, words, Space::Actions)?;
    let mut keys = Vec::new(alloc);
    for owner in &owners {
        keys.push(record_digest(words, *owner as usize))?;
    }
    keys.sort_unstable();
    Ok(keys)
}
