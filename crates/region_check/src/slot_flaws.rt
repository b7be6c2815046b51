// The flaws that slots show, row by row of the table.
ghost use Rattle.std.specs.Prelude.{◌≡◌, ◌≢◌, ℕ, ◌+◌, ◌<◌, ◌≤◌, ◌⊎◌, length, slice_index, MatchOption, IsTrue, ◌↔◌};
ghost use Rattle.cas_model.specs.declared.place.Space.TheVariants.{Objects};
ghost use Rattle.region_core.specs.Leads.{NamesRecordAt, IsFilledOf};
ghost use Rattle.region_check.specs.Flaws.{IsNoSlot, NamesOutside, IsCellOutside};
ghost use Rattle.region_check.specs.Roles.{AreRoles};
ghost use Rattle.region_check.specs.Shown.{LeastWhere, Shown, DeepShown, AstrayShown, IsReadyFor};

use crate::contents::is_present;
use crate::naming::{record_at, table_at};
use crate::paths::leads_to;
use cas_model::Space;
use region_core::{Slot, record_digest};

/// A kind of flaw that slots or contents show.
#[derive(Clone, Copy)]
pub(crate) enum Row {
    Slot,
    Range,
    Length,
    Path,
    Padding,
    Reference,
    Order,
    Digest,
    Value,
}

/// Whether a slot names a record or a subtrie outside of the arena.
fn names_outside(words: &[u64], slot: usize) -> bool
    requires { slot < length words.now }
    ensures { IsTrue result ↔ NamesOutside words.now slot }
{
    match words[slot] % 4 {
        1 => match record_at(words, slot) {
            None => true,
            Some(_) => false,
        },
        2 => match table_at(words, slot) {
            None => true,
            Some(_) => false,
        },
        _ => false,
    }
}

/// Whether a cell names a content that does not begin in the arena.
fn is_cell_outside(words: &[u64], cell: usize) -> bool
    requires { cell < length words.now }
    ensures { IsTrue result ↔ IsCellOutside words.now cell }
{
    let value = words[cell];
    value != 0 && (value < 520 || value >= words.len() as u64)
}

/// Whether a slot of level 62 names a subtrie.
fn is_too_deep(words: &[u64], level: u8, slot: usize) -> bool
    requires { slot < length words.now }
    ensures { IsTrue result ↔ DeepShown words.now level slot }
{
    if level != 62 {
        return false;
    }
    match table_at(words, slot) {
        None => false,
        Some(_) => true,
    }
}

/// Whether a slot of level 63 at most names a record whose digest does not lead to it.
fn is_astray(words: &[u64], space: Space, level: u8, slot: usize) -> bool
    requires least { 520 ≤ length words.now }
    requires slot { slot < length words.now }
    requires short { length words.now ≤ 67108864 }
    ensures { IsTrue result ↔ AstrayShown words.now space level slot }
{
    if level > 63 {
        return false;
    }
    match record_at(words, slot) {
        None => false,
        Some(owner) => {
            let digest = record_digest(words, owner as usize);
            !leads_to(words, space, &digest, slot)
        }
    }
}

/// The slot, where its word says nothing.
fn slot_flaw(words: &[u64], slot: usize) -> Option<u64>
    requires { slot < length words.now }
    ensures { LeastWhere (λ p. (p ≡ slot) × IsNoSlot (slice_index words.now slot)) result }
{
    match Slot::of(words[slot]) {
        None => Some(slot as u64),
        Some(_) => None,
    }
}

/// The slot, where it names a block outside of the arena, or else the cell of its record, where that names a content
/// outside.
fn range_flaw(words: &[u64], space: Space, slot: usize) -> Option<u64>
    requires { slot < length words.now }
    ensures { LeastWhere (λ p. ((p ≡ slot) × NamesOutside words.now slot) ⊎ ((space ≡ Objects) × ((r : ℕ) × NamesRecordAt words.now slot r × (p ≡ r + 4) × IsCellOutside words.now p))) result }
{
    if names_outside(words, slot) {
        return Some(slot as u64);
    }
    match space {
        Space::Actions => None,
        Space::Objects => match record_at(words, slot) {
            None => None,
            Some(owner) => {
                let cell = owner as usize + 4;
                if is_cell_outside(words, cell) {
                    Some(cell as u64)
                } else {
                    None
                }
            }
        },
    }
}

/// The slot, where it leads too deep or its record is astray.
fn path_flaw(words: &[u64], space: Space, level: u8, slot: usize) -> Option<u64>
    requires least { 520 ≤ length words.now }
    requires slot { slot < length words.now }
    requires short { length words.now ≤ 67108864 }
    ensures { LeastWhere (λ p. (p ≡ slot) × (DeepShown words.now level slot ⊎ AstrayShown words.now space level slot)) result }
{
    if is_too_deep(words, level, slot) {
        return Some(slot as u64);
    }
    if is_astray(words, space, level, slot) {
        return Some(slot as u64);
    }
    None
}

/// The cell of the action's record that a slot names, where it does not name the record of a present object.
fn value_flaw(words: &[u64], roles: &[u8], slot: usize) -> Option<u64>
    requires slot { slot < length words.now }
    requires roles { AreRoles words.now roles.now }
    requires short { length words.now ≤ 67108864 }
    ensures { LeastWhere (λ p. (r : ℕ) × NamesRecordAt words.now slot r × (p ≡ r + 4) × (slice_index words.now p ≢ 0) × (IsFilledOf words.now Objects (slice_index words.now p) → ⊥)) result }
{
    match record_at(words, slot) {
        None => None,
        Some(owner) => {
            let cell = owner as usize + 4;
            let value = words[cell];
            if value == 0 {
                return None;
            }
            if is_present(words, roles, value) {
                return None;
            }
            Some(cell as u64)
        }
    }
}

/// The least place of a flaw of a row that a slot shows, in a trie and at its table's level.
#[inline(always)]
pub(crate) fn flaw_at(
    words: &[u64],
    roles: &[u8],
    row: Row,
    space: Space,
    level: u8,
    slot: usize,
) -> Option<u64>
    requires least { 520 ≤ length words.now }
    requires slot { slot < length words.now }
    requires ready { IsReadyFor words.now roles.now row }
    requires short { length words.now ≤ 67108864 }
    ensures { LeastWhere (λ p. Shown words.now row space level slot p) result }
{
    match row {
        Row::Slot => slot_flaw(words, slot),
        Row::Range => range_flaw(words, space, slot),
        Row::Path => path_flaw(words, space, level, slot),
        Row::Value => match space {
            Space::Objects => None,
            Space::Actions => value_flaw(words, roles, slot),
        },
        Row::Length | Row::Padding | Row::Reference | Row::Order | Row::Digest => None,
    }
}
