// Reading the objects that tables name.
ghost use Rattle.std.specs.Prelude.{◌≡◌, IfOk, IfErr, MatchOption, None, Some, IsSome};
ghost use Rattle.cas_model.specs.Content.{content_places, content_bytes, bytes_of};
ghost use Rattle.cas_model.specs.Primary.{object_in};
ghost use Rattle.cas_model.specs.Tables.{record_at, digest_at, digests_at, object_of, words_at};
ghost use Rattle.cas_history.specs.Replays.{IsNoRecord, AreRecords};

use crate::{ReplayError, Rows};
use cas_model::{Content, Data, Digest, Object, Refs, split_head};
use std::alloc::{AllocError, Global};

impl Rows {
    /// The digest of the record at a place.
    pub fn digest_at(&self, place: u64) -> Result<Digest, ReplayError>
        ensures ok { IfOk result (λ digest. digest ≡ digest_at self.now.bound place) }
        ensures err { IfErr result (λ error. IsNoRecord self.now error) }
    {
        match self.record_at(place) {
            Some(record) => Ok(record.digest),
            None => Err(ReplayError::Unbound(place)),
        }
    }

    /// The words of the content at a place.
    pub fn words_at(&self, place: u64) -> Option<&[u64]>
        ensures { MatchOption result (words_at self.now.blocks place ≡ None) (λ words. words_at self.now.blocks place ≡ Some words.now) }
    {
        find_words(self.blocks(), place)
    }

    /// The object whose content is at a place. At the place 0 there is none.
    pub fn object_in(&self, alloc: Global, place: u64) -> Result<Option<Object>, ReplayError>
        ensures ok { IfOk result (λ o. o ≡ object_in self.now place) }
        ensures err { IfErr result (λ error. IsNoRecord self.now error) }
    {
        if place == 0 {
            return Ok(None);
        }
        let Some(words) = self.words_at(place) else {
            return Ok(None);
        };
        match self.first_unbound(places_of(words)) {
            Some(unbound) => Err(ReplayError::Unbound(unbound)),
            None => Ok(Some(self.object_of(alloc, words)?)),
        }
    }

    /// The object that the words of a content describe.
    pub fn object_of(&self, alloc: Global, words: &[u64]) -> Result<Object, AllocError>
        requires { AreRecords self.now (content_places words.now) }
        ensures { IfOk result (λ o. o ≡ object_of self.now.bound words.now) }
    {
        let refs = self.digests_at(alloc, places_of(words))?;
        let data = bytes_of_content(alloc, words)?;
        Ok(Object {
            refs: Refs::of(alloc, refs.as_slice())?,
            data: Data::of(alloc, data.as_slice())?,
        })
    }

    // The first of these places that has no record.
    fn first_unbound(&self, places: &[u64]) -> Option<u64>
        ensures { MatchOption result (AreRecords self.now places.now) (λ place. record_at self.now.bound place ≡ None) }
    {
        for place in places {
            if self.record_at(*place).is_none() {
                return Some(*place);
            }
        }
        None
    }

    // The digests of the records at these places.
    fn digests_at(&self, alloc: Global, places: &[u64]) -> Result<Vec<Digest>, AllocError>
        requires { AreRecords self.now places.now }
        ensures { IfOk result (λ digests. digests.items ≡ digests_at self.now.bound places.now) }
    {
        let mut digests = Vec::new(alloc);
        for place in places {
            digests.push(self.digest_there(*place))?;
        }
        Ok(digests)
    }

    fn digest_there(&self, place: u64) -> Digest
        requires { IsSome (record_at self.now.bound place) }
        ensures { result ≡ digest_at self.now.bound place }
    {
        self.record_at(place).unwrap().digest
    }
}

fn find_words(blocks: &[Content], place: u64) -> Option<&[u64]>
    ensures { MatchOption result (words_at blocks.now place ≡ None) (λ words. words_at blocks.now place ≡ Some words.now) }
{
    for content in blocks {
        if content.place == place {
            return Some(content.words.list());
        }
    }
    None
}

/// The words of a content that are the places of its references.
pub fn places_of(words: &[u64]) -> &[u64]
    ensures { result.now ≡ content_places words.now }
{
    let Some((head, rest)) = words.split_first() else {
        return words;
    };
    let (refs, _) = split_head(*head);
    let refs = (refs as usize).min(rest.len());
    &rest[..refs]
}

/// The bytes of a content.
pub fn bytes_of_content(alloc: Global, words: &[u64]) -> Result<Vec<u8>, AllocError>
    ensures { IfOk result (λ bytes. bytes.items ≡ content_bytes words.now) }
{
    let Some((head, rest)) = words.split_first() else {
        return Ok(Vec::new(alloc));
    };
    let (refs, length) = split_head(*head);
    let refs = (refs as usize).min(rest.len());
    let mut bytes = bytes_of_words(alloc, &rest[refs..])?;
    bytes.truncate(length as usize);
    Ok(bytes)
}

fn bytes_of_words(alloc: Global, words: &[u64]) -> Result<Vec<u8>, AllocError>
    ensures { IfOk result (λ bytes. bytes.items ≡ bytes_of words.now) }
{
    let mut bytes = Vec::new(alloc);
    for word in words {
        bytes.extend_from_slice(&word.to_le_bytes())?;
    }
    Ok(bytes)
}
