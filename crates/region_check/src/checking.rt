// The first flaw of words, and the closed region of words that have none.
ghost use Rattle.std.specs.Prelude.{◌≡◌, ◌≤◌, suc, length, MatchOption, IfOk, IfErr};
ghost use Rattle.frozen_store.specs.Seen.{HasState};
ghost use Rattle.region_check.specs.Flaws.{HasKind, turn, IsShared, IsFirstFlaw, Refuses};
ghost use Rattle.region_check.specs.Passes.{RowOf, HasNoneBefore, HasHeader};
ghost use Rattle.region_check.specs.Roles.{AreRoles, AreUnclaimed};
ghost use Rattle.region_check.specs.Shown.{LeastWhere, AreTries, IsOfContents, IsReadyFor, turn_of};

use crate::cells::{least_in_contents, leasts_in_contents};
use crate::header::head_flaw;
use crate::least::{Leasts, Tries, least_in_slots, least_value};
use crate::naming::word_at;
use crate::reach::reach;
use crate::roles::roles_of;
use crate::slot_flaws::Row;
use crate::sum::content_digest;
use crate::sweep::sweep_words;
use crate::{CheckError, Flaw, FlawKind};
use cas_model::Space;
use frozen_store::Frozen;
use region_core::record_digest;
use std::alloc::{AllocError, Global};

/// The kind of the flaw that a row has at a place.
fn kind_at(words: &[u64], row: Row, place: u64) -> FlawKind
    requires short { length words.now ≤ 67108864 }
    requires none { HasNoneBefore words.now (turn_of row) }
    requires here { RowOf words.now (turn_of row) place }
    ensures kind { HasKind words.now result place }
    ensures turn { turn result ≡ turn_of row }
{
    match row {
        Row::Slot => FlawKind::Slot,
        Row::Range => FlawKind::Range,
        Row::Length => FlawKind::Length,
        Row::Path => FlawKind::Path,
        Row::Padding => FlawKind::Padding,
        Row::Reference => FlawKind::Reference,
        Row::Order => FlawKind::Order,
        Row::Digest => {
            let content = word_at(words, place + 4) as usize;
            FlawKind::DigestDiffers {
                kept: record_digest(words, place as usize),
                found: content_digest(words, content),
            }
        }
        Row::Value => FlawKind::ActionValue,
    }
}

/// The first flaw, where no earlier row has one and this row has its least one at a place.
fn flaw_of(words: &[u64], row: Row, least: Option<u64>) -> Option<Flaw>
    requires short { length words.now ≤ 67108864 }
    requires none { HasNoneBefore words.now (turn_of row) }
    requires least { LeastWhere (RowOf words.now (turn_of row)) least }
    ensures { MatchOption result (HasNoneBefore words.now (suc (turn_of row))) (λ flaw. IsFirstFlaw words.now flaw) }
{
    match least {
        None => None,
        Some(place) => Some(Flaw {
            place,
            kind: kind_at(words, row, place),
        }),
    }
}

/// The first flaw of a row of contents, where no earlier row has one.
fn row_flaw(words: &[u64], roles: &[u8], row: Row) -> Option<Flaw>
    requires short { length words.now ≤ 67108864 }
    requires none { HasNoneBefore words.now (turn_of row) }
    requires contents { IsOfContents row }
    requires roles { AreRoles words.now roles.now }
    requires ready { IsReadyFor words.now roles.now row }
    ensures { MatchOption result (HasNoneBefore words.now (suc (turn_of row))) (λ flaw. IsFirstFlaw words.now flaw) }
{
    flaw_of(words, row, least_in_contents(words, roles, row))
}

/// The first flaw of slots and of what they and cells name.
fn name_flaw(words: &[u64], leasts: Leasts) -> Option<Flaw>
    requires header { HasHeader words.now }
    requires slot { LeastWhere (RowOf words.now 3) leasts.first }
    requires range { LeastWhere (RowOf words.now 4) leasts.second }
    ensures { MatchOption result (HasNoneBefore words.now 5) (λ flaw. IsFirstFlaw words.now flaw) }
{
    match flaw_of(words, Row::Slot, leasts.first) {
        Some(flaw) => Some(flaw),
        None => flaw_of(words, Row::Range, leasts.second),
    }
}

/// The first flaw of the words of contents, and of their digests.
fn content_flaw(words: &[u64], roles: &[u8]) -> Option<Flaw>
    requires short { length words.now ≤ 67108864 }
    requires none { HasNoneBefore words.now 8 }
    requires roles { AreRoles words.now roles.now }
    ensures { MatchOption result (HasNoneBefore words.now 12) (λ flaw. IsFirstFlaw words.now flaw) }
{
    let leasts = leasts_in_contents(words, roles);
    match flaw_of(words, Row::Padding, leasts.first) {
        Some(flaw) => Some(flaw),
        None => match flaw_of(words, Row::Reference, leasts.second) {
            Some(flaw) => Some(flaw),
            None => match flaw_of(words, Row::Order, leasts.third) {
                Some(flaw) => Some(flaw),
                None => row_flaw(words, roles, Row::Digest),
            },
        },
    }
}

/// The first flaw from that of paths on, where blocks are apart.
fn path_flaw(words: &[u64], roles: &[u8], tries: &Tries, path: Option<u64>) -> Option<Flaw>
    requires least { 520 ≤ length words.now }
    requires short { length words.now ≤ 67108864 }
    requires none { HasNoneBefore words.now 7 }
    requires roles { AreRoles words.now roles.now }
    requires tries { AreTries words.now tries.now.objects.items tries.now.actions.items }
    requires path { LeastWhere (RowOf words.now 7) path }
    ensures { MatchOption result (HasNoneBefore words.now 13) (λ flaw. IsFirstFlaw words.now flaw) }
{
    match flaw_of(words, Row::Path, path) {
        Some(flaw) => Some(flaw),
        None => match content_flaw(words, roles) {
            Some(flaw) => Some(flaw),
            None => flaw_of(words, Row::Value, least_value(words, roles, tries)),
        },
    }
}

/// The first flaw from that of blocks on: overlap first.
fn block_flaw(
    words: &[u64],
    roles: &[u8],
    tries: &Tries,
    shared: Option<u64>,
    path: Option<u64>,
) -> Option<Flaw>
    requires header { HasHeader words.now }
    requires none { HasNoneBefore words.now 6 }
    requires roles { AreRoles words.now roles.now }
    requires tries { AreTries words.now tries.now.objects.items tries.now.actions.items }
    requires shared { LeastWhere (λ w. IsShared words.now w) shared }
    requires path { HasNoneBefore words.now 7 → LeastWhere (RowOf words.now 7) path }
    ensures { MatchOption result (HasState words.now) (λ flaw. IsFirstFlaw words.now flaw) }
{
    match shared {
        Some(place) => Some(Flaw {
            place,
            kind: FlawKind::Overlap,
        }),
        None => path_flaw(words, roles, tries, path),
    }
}

/// The first flaw from that of lengths on.
fn length_flaw(words: &[u64], roles: &mut [u8], tries: &Tries, path: Option<u64>) -> Option<Flaw>
    requires header { HasHeader words.now }
    requires none { HasNoneBefore words.now 5 }
    requires roles { AreRoles words.now roles.old }
    requires unclaimed { AreUnclaimed roles.old }
    requires tries { AreTries words.now tries.now.objects.items tries.now.actions.items }
    requires path { HasNoneBefore words.now 7 → LeastWhere (RowOf words.now 7) path }
    ensures { MatchOption result (HasState words.now) (λ flaw. IsFirstFlaw words.now flaw) }
{
    let found = sweep_words(words, roles);
    match flaw_of(words, Row::Length, found.long) {
        Some(flaw) => Some(flaw),
        None => block_flaw(words, roles, tries, found.shared, path),
    }
}

/// The tables of both tries.
fn tries_of(alloc: Global, words: &[u64]) -> Result<Tries, AllocError>
    requires least { 520 ≤ length words.now }
    requires short { length words.now ≤ 67108864 }
    ensures { IfOk result (λ tries. AreTries words.now tries.objects.items tries.actions.items) }
{
    Ok(Tries {
        objects: reach(alloc, words, Space::Objects)?,
        actions: reach(alloc, words, Space::Actions)?,
    })
}

/// The first flaw of words, and None where they stand for a state.
fn first_flaw(alloc: Global, words: &[u64]) -> Result<Option<Flaw>, AllocError>
    ensures { IfOk result (λ first. MatchOption first (HasState words.now) (λ flaw. IsFirstFlaw words.now flaw)) }
{
    if let Some(flaw) = head_flaw(words) {
        return Ok(Some(flaw));
    }
    let tries = tries_of(alloc, words)?;
    let leasts = least_in_slots(words, &tries);
    if let Some(flaw) = name_flaw(words, leasts) {
        return Ok(Some(flaw));
    }
    let mut roles = roles_of(alloc, words, &tries)?;
    let first = length_flaw(words, &mut roles, &tries, leasts.third);
    Ok(first)
}

/// The closed region of words that come from strangers, where they are lawful; and where they are not, the first flaw:
/// kind by kind in the order of the table in docs/REGION.md, and of one kind the one with the least place. The table is
/// this project's own. It fails with `Memory` where there is none.
///
/// It lists each table once for each trie that leads to it, however many slots name it, and takes a time that is linear
/// in the words, with one hash of each present object. Beside the words it takes a byte a word, and a list of tables.
pub fn check(alloc: Global, words: Vec<u64>) -> Result<Frozen, CheckError>
    ensures lawful { IfOk result (λ frozen. frozen.words ≡ words.items) }
    ensures refused { IfErr result (λ error. Refuses words.items error) }
{
    match first_flaw(alloc, words.as_slice())? {
        Some(flaw) => Err(CheckError::Flaw(flaw)),
        None => Ok(Frozen::of_words(alloc, words)?),
    }
}
