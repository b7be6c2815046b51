// The least word that lies in two blocks, and the least content that is too long.
ghost use Rattle.std.specs.Prelude.{◌≡◌, ℕ, ◌+◌, ◌<◌, ◌≤◌, length, slice_index};
ghost use Rattle.region_check.specs.Flaws.{BySlot, IsShared};
ghost use Rattle.region_check.specs.Passes.{RowOf, HasNoneBefore};
ghost use Rattle.region_check.specs.Roles.{AreRoles, AreUnclaimed};
ghost use Rattle.region_check.specs.Shown.{LeastWhere};
ghost use Rattle.region_check.specs.Sweep.{BlockMarked, OneSwept, CellSwept};

use crate::cells::least_in_cell;
use crate::contents::{end_of, is_too_long};
use crate::least::lower;
use crate::naming::{record_at, table_at};
use crate::slot_flaws::Row;

/// The least places that a sweep finds: of a content that is too long, and of a word that lies in two blocks.
#[derive(Clone, Copy)]
pub(crate) struct Found {
    pub long: Option<u64>,
    pub shared: Option<u64>,
}

/// Marks the words of a block up to its end, or up to one that was seen in another block, which it answers.
fn mark_block(roles: &mut [u8], at: usize, size: usize) -> Option<u64>
    requires inside { at + size ≤ length roles.old }
    requires small { (w : ℕ) → slice_index roles.old w < 8 }
    ensures { BlockMarked roles.old roles.new at size result }
{
    for word in at..at + size {
        if roles[word] >= 4 {
            return Some(word as u64);
        }
        roles[word] += 4;
    }
    None
}

/// Marks the block that a slot names.
fn sweep_slot(words: &[u64], roles: &mut [u8], slot: usize) -> Option<u64>
    requires slot { slot < length words.now }
    requires roles { AreRoles words.now roles.old }
    ensures { OneSwept words.now (BySlot slot) roles.old roles.new result }
{
    if roles[slot] % 2 == 0 {
        return None;
    }
    match record_at(words, slot) {
        Some(place) => mark_block(roles, place as usize, 5),
        None => match table_at(words, slot) {
            Some(place) => mark_block(roles, place as usize, 16),
            None => None,
        },
    }
}

/// Marks the content that an object's cell names, where it is not too long.
fn sweep_cell(words: &[u64], roles: &mut [u8], cell: usize) -> Option<u64>
    requires cell { cell < length words.now }
    requires roles { AreRoles words.now roles.old }
    requires short { length words.now ≤ 67108864 }
    ensures { CellSwept words.now cell roles.old roles.new result }
{
    if roles[cell] / 2 % 2 == 0 {
        return None;
    }
    let place = words[cell] as usize;
    if place < 520 || place >= words.len() {
        return None;
    }
    if is_too_long(words, place) {
        return None;
    }
    let end = end_of(words, place) as usize;
    mark_block(roles, place, end - place)
}

/// The least content that is too long, and the least word that lies in two blocks. It marks the words of each block that a
/// slot or an object's cell names, up to the first that was marked before: those after it are no lower. A content that is
/// too long is left out, so what is told of blocks counts only where there is none.
pub(crate) fn sweep_words(words: &[u64], roles: &mut [u8]) -> Found
    requires least { 520 ≤ length words.now }
    requires roles { AreRoles words.now roles.old }
    requires unclaimed { AreUnclaimed roles.old }
    requires short { length words.now ≤ 67108864 }
    ensures long { LeastWhere (RowOf words.now 5) result.long }
    ensures shared { HasNoneBefore words.now 6 → LeastWhere (λ w. IsShared words.now w) result.shared }
    ensures roles { AreRoles words.now roles.new }
{
    let mut long = None;
    let mut shared = None;
    for at in 0..words.len() {
        long = lower(long, least_in_cell(words, roles, Row::Length, at));
        shared = lower(shared, sweep_slot(words, roles, at));
        shared = lower(shared, sweep_cell(words, roles, at));
    }
    Found { long, shared }
}
