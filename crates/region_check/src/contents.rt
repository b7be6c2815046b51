// The flaws of contents.
ghost use Rattle.std.specs.Prelude.{◌≡◌, ◌≢◌, ℕ, ◌+◌, ◌<◌, ◌≤◌, length, slice_index, MatchOption, IsTrue, ◌↔◌};
ghost use Rattle.cas_model.specs.declared.place.Space.TheVariants.{Objects};
ghost use Rattle.cas_model.specs.Object.{object_digest};
ghost use Rattle.region_core.specs.Leads.{IsFilledOf, digest_there, object_there, cell_there};
ghost use Rattle.region_check.specs.Flaws.{IsTooLong, IsStray, IsReferenceWord, refs_told, bytes_told, end_told};
ghost use Rattle.region_check.specs.Roles.{AreRoles};
ghost use Rattle.region_check.specs.Shown.{LeastWhere, ContentShown, IsReadyFor};
ghost use Rattle.region_check.specs.declared.slot_flaws.Row.TheVariants as rows;

use crate::naming::word_at;
use region_core::split_head;

/// The place after a content's last word, as its head tells.
pub(crate) fn end_of(words: &[u64], place: usize) -> u64
    requires inside { place < length words.now }
    requires short { length words.now ≤ 67108864 }
    ensures { result ≡ end_told words.now place }
{
    let (refs, bytes) = split_head(words[place]);
    place as u64 + 1 + refs + bytes.div_ceil(8)
}

/// Whether a content is past the limits, or ends past the last word.
pub(crate) fn is_too_long(words: &[u64], place: usize) -> bool
    requires inside { place < length words.now }
    requires short { length words.now ≤ 67108864 }
    ensures { IsTrue result ↔ IsTooLong words.now place }
{
    let (refs, bytes) = split_head(words[place]);
    refs > 65_535 || bytes > 16_777_215 || end_of(words, place) > words.len() as u64
}

/// The last word of a content, where bytes after the last one are not 0.
pub(crate) fn stray(words: &[u64], place: usize) -> Option<u64>
    requires inside { place < length words.now }
    requires short { length words.now ≤ 67108864 }
    ensures { LeastWhere (λ p. IsStray words.now place p) result }
{
    let (_refs, bytes) = split_head(words[place]);
    let used = bytes % 8;
    let last = end_of(words, place) - 1;
    if used != 0 && word_at(words, last) >> (8 * used) != 0 {
        Some(last)
    } else {
        None
    }
}

/// Whether a place is that of the record of a present object.
pub(crate) fn is_present(words: &[u64], roles: &[u8], place: u64) -> bool
    requires roles { AreRoles words.now roles.now }
    requires short { length words.now ≤ 67108864 }
    ensures { IsTrue result ↔ IsFilledOf words.now Objects place }
{
    let used = words.len() as u64;
    if place >= used || used - place <= 4 {
        return false;
    }
    let cell = place as usize + 4;
    roles[cell] / 2 % 2 == 1 && words[cell] != 0
}

/// The first reference of a content that is not the record of a present object.
pub(crate) fn absent_reference(words: &[u64], roles: &[u8], place: usize) -> Option<u64>
    requires roles { AreRoles words.now roles.now }
    requires inside { place < length words.now }
    requires short { length words.now ≤ 67108864 }
    ensures { LeastWhere (λ p. IsReferenceWord words.now place p × (IsFilledOf words.now Objects (slice_index words.now p) → ⊥)) result }
{
    let (refs, _bytes) = split_head(words[place]);
    let first = place as u64 + 1;
    for index in 0..refs {
        if !is_present(words, roles, word_at(words, first + index)) {
            return Some(first + index);
        }
    }
    None
}

/// The cell of a record, and 0 past the last word.
fn cell_at(words: &[u64], owner: u64) -> u64
    ensures { result ≡ cell_there words.now owner }
{
    if owner < words.len() as u64 {
        word_at(words, owner + 4)
    } else {
        0
    }
}

/// The first reference of a content whose own content does not lie lower.
pub(crate) fn high_reference(words: &[u64], place: usize) -> Option<u64>
    requires inside { place < length words.now }
    requires short { length words.now ≤ 67108864 }
    ensures { LeastWhere (λ p. IsReferenceWord words.now place p × (place ≤ cell_there words.now (slice_index words.now p))) result }
{
    let (refs, _bytes) = split_head(words[place]);
    let first = place as u64 + 1;
    for index in 0..refs {
        if cell_at(words, word_at(words, first + index)) >= place as u64 {
            return Some(first + index);
        }
    }
    None
}
