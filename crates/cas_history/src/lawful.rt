// Whether an event may happen after tables, and its fill is lawful for an upstream.
ghost use Rattle.std.specs.Prelude.{◌≡◌, ◌+◌, ◌≤◌, ◌↔◌, IsTrue, IfOk, IsSome, length};
ghost use Rattle.std.specs.FinMap as fin;
ghost use Rattle.cas_model.specs.Content.{IsContent, content_places, content_words};
ghost use Rattle.cas_model.specs.Start.{IsFilled, RefsBelow, IsContentFor};
ghost use Rattle.cas_model.specs.Tables.{HasClaim, place_of, record_at, object_of};
ghost use Rattle.cas_history.specs.Lawful.{IsFreeBlock, MayBind, MayFill, MayFillAt, MayHappen, IsObjectRule, IsActionRule, Agrees};
ghost use Rattle.cas_history.specs.Replays.{state_of};

use crate::below::{object_under, value_under};
use crate::reading::{bytes_of_content, places_of};
use crate::{Act, ClaimedBlock, Rows};
use cas_model::{Contents, Digest, Object, Place, Space, Who, data_word, head_word};
use std::alloc::{AllocError, Global};

impl Rows {
    /// Whether an act of a call may happen after these tables, and its fill is lawful for the upstream.
    pub fn may_happen(
        &self,
        alloc: Global,
        upstream: &Contents,
        who: Who,
        act: &Act,
    ) -> Result<bool, AllocError>
        ensures { IfOk result (λ may. IsTrue may ↔ MayHappen (state_of upstream.now) self.now who act.now) }
    {
        match act {
            Act::Look(..) => Ok(true),
            Act::Bind(space, digest, own) => Ok(self.may_bind(
                who,
                self.place_of(*space, digest),
                *own,
            )),
            Act::Read(cell) => Ok(self.record_at(cell.at).is_some()),
            Act::Claim(words) => Ok(*words > 0 && self.has_room(*words)),
            Act::Room(words, _) => Ok(*words > 0 && !self.has_room(*words)),
            Act::Fill(cell, value, words) => match self.record_at(cell.at) {
                Some(record) => self.may_fill(
                    alloc,
                    upstream,
                    who,
                    record.space,
                    &record.digest,
                    *value,
                    words.list(),
                ),
                None => Ok(false),
            },
        }
    }

    // Whether so many words fit between the counter and the end.
    fn has_room(&self, words: u64) -> bool
        ensures { IsTrue result ↔ (self.now.counter + words ≤ self.now.size) }
    {
        words <= self.size() && self.counter() <= self.size() - words
    }

    fn may_bind(&self, who: Who, found: Option<Place>, own: Option<Place>) -> bool
        ensures { IsTrue result ↔ MayBind self.now who found own }
    {
        match (found, own) {
            (Some(_), _) => true,
            (None, None) => false,
            (None, Some(place)) => self.is_free(who, place.at, 5),
        }
    }

    // Whether the call claimed this block, and nothing names it.
    fn is_free(&self, who: Who, place: u64, length: u64) -> bool
        ensures { IsTrue result ↔ IsFreeBlock self.now who place length }
    {
        has_claim(self.claims(), who, place, length)
            && self.record_at(place).is_none()
            && self.words_at(place).is_none()
    }

    // Whether the place is that of an object's record whose cell is filled.
    fn is_filled(&self, place: u64) -> bool
        ensures { IsTrue result ↔ IsFilled self.now place }
    {
        match self.record_at(place) {
            Some(record) => is_objects(record.space) && self.cell_of(place) > 0,
            None => false,
        }
    }

    // Whether each place is that of a filled object's record whose content lies below.
    fn refs_below(&self, value: u64, places: &[u64]) -> bool
        ensures { IsTrue result ↔ RefsBelow self.now value places.now }
    {
        for place in places {
            if !self.is_filled(*place) || self.cell_of(*place) >= value {
                return false;
            }
        }
        true
    }

    fn may_fill(
        &self,
        alloc: Global,
        upstream: &Contents,
        who: Who,
        space: Space,
        digest: &Digest,
        value: u64,
        words: &[u64],
    ) -> Result<bool, AllocError>
        ensures { IfOk result (λ may. IsTrue may ↔ MayFill (state_of upstream.now) self.now who space digest.now value words.now) }
    {
        match space {
            Space::Objects => {
                let is_free = self.is_free(who, value, words.len() as u64);
                Ok(is_free && self.is_object_rule(alloc, upstream, digest, value, words)?)
            }
            Space::Actions => Ok(words.is_empty() && self.is_action_rule(upstream, digest, value)),
        }
    }

    // Whether the words are a content that may lie there, of the digest, and the upstream's where it has the digest.
    fn is_object_rule(
        &self,
        alloc: Global,
        upstream: &Contents,
        digest: &Digest,
        value: u64,
        words: &[u64],
    ) -> Result<bool, AllocError>
        ensures { IfOk result (λ is. IsTrue is ↔ IsObjectRule (state_of upstream.now) self.now digest.now value words.now) }
    {
        if !is_content(alloc, words)? || !self.refs_below(value, places_of(words)) {
            return Ok(false);
        }
        let object = self.object_of(alloc, words)?;
        if Digest::of(object.refs.list(), object.data.list()).bytes != digest.bytes {
            return Ok(false);
        }
        Ok(match object_under(upstream.objects.as_slice(), digest) {
            Some(other) => is_same_object(&object, other),
            None => true,
        })
    }

    // Whether the value is a filled object's record, and names the upstream's value where it has the key.
    fn is_action_rule(&self, upstream: &Contents, key: &Digest, value: u64) -> bool
        ensures { IsTrue result ↔ IsActionRule (state_of upstream.now) self.now key.now value }
    {
        if !self.is_filled(value) {
            return false;
        }
        match (
            value_under(upstream.actions.as_slice(), key),
            self.record_at(value),
        ) {
            (Some(wanted), Some(record)) => record.digest.bytes == wanted.bytes,
            _ => true,
        }
    }
}

fn has_claim(claims: &[ClaimedBlock], who: Who, place: u64, length: u64) -> bool
    ensures { IsTrue result ↔ HasClaim claims.now who place length }
{
    for c in claims {
        if c.who == who && c.place == place && c.length == length {
            return true;
        }
    }
    false
}

fn is_objects(space: Space) -> bool
    ensures { IsTrue result ↔ (space ≡ Space.Objects) }
{
    matches!(space, Space::Objects)
}

fn is_same_object(a: &Object, b: &Object) -> bool
    ensures { IsTrue result ↔ (a.now ≡ b.now) }
{
    a.refs.list() == b.refs.list() && a.data.list() == b.data.list()
}

// Whether the words are a content within the limits.
fn is_content(alloc: Global, words: &[u64]) -> Result<bool, AllocError>
    ensures { IfOk result (λ is. IsTrue is ↔ IsContent words.now) }
{
    let places = places_of(words);
    let bytes = bytes_of_content(alloc, words)?;
    if places.len() > 65_535 || bytes.len() > 16_777_215 {
        return Ok(false);
    }
    let again = content_of(alloc, places, bytes.as_slice())?;
    Ok(again.as_slice() == words)
}

// The words of the content with these places and this data.
fn content_of(alloc: Global, places: &[u64], data: &[u8]) -> Result<Vec<u64>, AllocError>
    requires few_refs { length places.now ≤ 65535 }
    requires short { length «data».now ≤ 16777215 }
    ensures { IfOk result (λ words. words.items ≡ content_words places.now «data».now) }
{
    let mut words = Vec::new(alloc);
    words.push(head_word(places.len() as u64, data.len() as u64))?;
    words.extend_from_slice(places)?;
    for index in 0..(data.len() as u64).div_ceil(8) {
        words.push(data_word(data, index))?;
    }
    Ok(words)
}
