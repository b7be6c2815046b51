// The flaws of contents. Objects' cells are gone through as they lie, so that contents are read in order.
ghost use Rattle.std.specs.Prelude.{◌≡◌, ◌≢◌, ℕ, ◌+◌, ◌<◌, ◌≤◌, length, MatchOption, IsTrue, ◌↔◌};
ghost use Rattle.cas_model.specs.Object.{object_digest};
ghost use Rattle.region_core.specs.Leads.{digest_there, object_there};
ghost use Rattle.region_check.specs.Flaws.{IsReached};
ghost use Rattle.region_check.specs.Passes.{RowOf, HasNoneBefore};
ghost use Rattle.region_check.specs.Roles.{AreRoles};
ghost use Rattle.region_check.specs.Shown.{LeastWhere, LeastOfEach, ContentShown, CellShown, CellsShown, IsOfContents, IsReadyFor, AreReadyFor, turn_of};

use crate::contents::{absent_reference, high_reference, is_too_long, stray};
use crate::least::{Leasts, Rows, lower};
use crate::slot_flaws::Row;
use crate::sum::content_digest;
use region_core::record_digest;

/// A record with the content that its cell names.
#[derive(Clone, Copy)]
struct Owned {
    owner: u64,
    place: u64,
}

/// The object's record whose cell is a word, and the content in the arena that it names.
fn owned_by(words: &[u64], roles: &[u8], cell: usize) -> Option<Owned>
    requires cell { cell < length words.now }
    requires roles { AreRoles words.now roles.now }
    ensures { MatchOption result ((r c : ℕ) → cell ≡ r + 4 → IsReached words.now r c → ⊥) (λ owned. (cell ≡ owned.owner + 4) × IsReached words.now owned.owner owned.place) }
{
    if roles[cell] / 2 % 2 == 0 {
        return None;
    }
    let place = words[cell];
    if place < 520 || place >= words.len() as u64 {
        return None;
    }
    Some(Owned {
        owner: cell as u64 - 4,
        place,
    })
}

/// Whether an object's content has another digest than its record.
fn has_other_digest(words: &[u64], owned: Owned) -> bool
    requires none { HasNoneBefore words.now 10 }
    requires reached { IsReached words.now owned.owner owned.place }
    requires short { length words.now ≤ 67108864 }
    ensures { IsTrue result ↔ (digest_there words.now owned.owner ≢ object_digest (object_there words.now owned.place)) }
{
    let kept = record_digest(words, owned.owner as usize);
    let found = content_digest(words, owned.place as usize);
    let same = kept == found;
    !same
}

/// The least place of a flaw of a row in an object's content.
fn content_flaw(words: &[u64], roles: &[u8], row: Row, owned: Owned) -> Option<u64>
    requires ready { IsReadyFor words.now roles.now row }
    requires reached { IsReached words.now owned.owner owned.place }
    requires short { length words.now ≤ 67108864 }
    ensures { LeastWhere (λ p. ContentShown words.now row owned.owner owned.place p) result }
{
    let place = owned.place as usize;
    match row {
        Row::Length => {
            if is_too_long(words, place) {
                Some(owned.place)
            } else {
                None
            }
        }
        Row::Padding => stray(words, place),
        Row::Reference => absent_reference(words, roles, place),
        Row::Order => high_reference(words, place),
        Row::Digest => {
            if has_other_digest(words, owned) {
                Some(owned.owner)
            } else {
                None
            }
        }
        Row::Slot | Row::Range | Row::Path | Row::Value => None,
    }
}

/// The least place of a flaw of a row in the content that a word names, where it is an object's cell.
pub(crate) fn least_in_cell(words: &[u64], roles: &[u8], row: Row, cell: usize) -> Option<u64>
    requires cell { cell < length words.now }
    requires roles { AreRoles words.now roles.now }
    requires ready { IsReadyFor words.now roles.now row }
    requires short { length words.now ≤ 67108864 }
    ensures { LeastWhere (CellShown words.now row cell) result }
{
    match owned_by(words, roles, cell) {
        None => None,
        Some(owned) => content_flaw(words, roles, row, owned),
    }
}

/// The least place of a flaw of a row in the contents that objects' cells name.
fn least_in_cells(words: &[u64], roles: &[u8], row: Row) -> Option<u64>
    requires roles { AreRoles words.now roles.now }
    requires ready { IsReadyFor words.now roles.now row }
    requires short { length words.now ≤ 67108864 }
    ensures { LeastWhere (CellsShown words.now row (length words.now)) result }
{
    let mut least = None;
    for cell in 0..words.len() {
        least = lower(least, least_in_cell(words, roles, row, cell));
    }
    least
}

/// The least place of a flaw of a row of contents.
pub(crate) fn least_in_contents(words: &[u64], roles: &[u8], row: Row) -> Option<u64>
    requires contents { IsOfContents row }
    requires roles { AreRoles words.now roles.now }
    requires ready { IsReadyFor words.now roles.now row }
    requires short { length words.now ≤ 67108864 }
    ensures { LeastWhere (RowOf words.now (turn_of row)) result }
{
    least_in_cells(words, roles, row)
}

/// The least place of a flaw of each of three rows in an object's content.
fn content_flaws(words: &[u64], roles: &[u8], rows: Rows, owned: Owned) -> Leasts
    requires ready { AreReadyFor words.now roles.now rows }
    requires reached { IsReached words.now owned.owner owned.place }
    requires short { length words.now ≤ 67108864 }
    ensures { LeastOfEach (λ row p. ContentShown words.now row owned.owner owned.place p) rows result }
{
    Leasts {
        first: content_flaw(words, roles, rows.first, owned),
        second: content_flaw(words, roles, rows.second, owned),
        third: content_flaw(words, roles, rows.third, owned),
    }
}

/// The least place of a flaw of each of three rows in the content that a word names, where it is an object's cell.
fn leasts_in_cell(words: &[u64], roles: &[u8], rows: Rows, cell: usize) -> Leasts
    requires cell { cell < length words.now }
    requires roles { AreRoles words.now roles.now }
    requires ready { AreReadyFor words.now roles.now rows }
    requires short { length words.now ≤ 67108864 }
    ensures { LeastOfEach (λ row. CellShown words.now row cell) rows result }
{
    match owned_by(words, roles, cell) {
        None => Leasts::none(),
        Some(owned) => content_flaws(words, roles, rows, owned),
    }
}

/// The least place of a flaw of each of three rows in the contents that objects' cells name.
fn leasts_in_cells(words: &[u64], roles: &[u8], rows: Rows) -> Leasts
    requires roles { AreRoles words.now roles.now }
    requires ready { AreReadyFor words.now roles.now rows }
    requires short { length words.now ≤ 67108864 }
    ensures { LeastOfEach (λ row. CellsShown words.now row (length words.now)) rows result }
{
    let mut leasts = Leasts::none();
    for cell in 0..words.len() {
        leasts = leasts.lower(leasts_in_cell(words, roles, rows, cell));
    }
    leasts
}

/// The least places of flaws of padding, of references and of their order, in this order. A content's words are near from
/// the first row on.
pub(crate) fn leasts_in_contents(words: &[u64], roles: &[u8]) -> Leasts
    requires roles { AreRoles words.now roles.now }
    requires short { length words.now ≤ 67108864 }
    ensures padding { LeastWhere (RowOf words.now 8) result.first }
    ensures reference { LeastWhere (RowOf words.now 9) result.second }
    ensures order { LeastWhere (RowOf words.now 10) result.third }
{
    let rows = Rows {
        first: Row::Padding,
        second: Row::Reference,
        third: Row::Order,
    };
    leasts_in_cells(words, roles, rows)
}
