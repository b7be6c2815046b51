// The least places of the flaws of rows, three rows in one walk.
ghost use Rattle.std.specs.Prelude.{◌≡◌, ℕ, ◌⊎◌, ◌<◌, ◌≤◌, length, None};
ghost use Rattle.cas_model.specs.declared.place.Space.TheVariants.{Objects, Actions};
ghost use Rattle.region_check.specs.Reach.{AreTables, IsLed, slots_of};
ghost use Rattle.region_check.specs.Shown.{LeastWhere, LeastOfEach, Shown, TableShown, TrieShown, IsReadyFor, AreReadyFor, lower_of, AreTries};
ghost use Rattle.region_check.specs.Passes.{RowOf, HasNoneBefore};
ghost use Rattle.region_check.specs.Roles.{AreRoles};

use crate::reach::Table;
use crate::slot_flaws::{Row, flaw_at};
use cas_model::Space;

/// The tables of both tries.
#[derive(Drop)]
pub(crate) struct Tries {
    pub objects: Vec<Table>,
    pub actions: Vec<Table>,
}

/// Three rows that one walk looks for.
#[derive(Clone, Copy)]
pub(crate) struct Rows {
    pub first: Row,
    pub second: Row,
    pub third: Row,
}

/// The least place of a flaw of each of three rows.
#[derive(Clone, Copy)]
pub(crate) struct Leasts {
    pub first: Option<u64>,
    pub second: Option<u64>,
    pub third: Option<u64>,
}

impl Leasts {
    /// No place of any row.
    pub(crate) fn none() -> Leasts
        ensures first { result.first ≡ None }
        ensures second { result.second ≡ None }
        ensures third { result.third ≡ None }
    {
        Leasts {
            first: None,
            second: None,
            third: None,
        }
    }

    /// The lower ones of two places each, of those that there are.
    pub(crate) fn lower(self, other: Leasts) -> Leasts
        ensures first { result.first ≡ lower_of self.first other.first }
        ensures second { result.second ≡ lower_of self.second other.second }
        ensures third { result.third ≡ lower_of self.third other.third }
    {
        Leasts {
            first: lower(self.first, other.first),
            second: lower(self.second, other.second),
            third: lower(self.third, other.third),
        }
    }
}

/// The lower one of two places, of those that there are. The second one, which is seldom there, is looked at first.
pub(crate) fn lower(one: Option<u64>, two: Option<u64>) -> Option<u64>
    ensures { result ≡ lower_of one two }
{
    match two {
        None => one,
        Some(b) => match one {
            Some(a) if a < b => Some(a),
            _ => Some(b),
        },
    }
}

/// The least place of a flaw of a row that the slots of a table show.
fn least_in_table(words: &[u64], roles: &[u8], row: Row, space: Space, table: &Table) -> Option<u64>
    requires least { 520 ≤ length words.now }
    requires short { length words.now ≤ 67108864 }
    requires ready { IsReadyFor words.now roles.now row }
    requires led { IsLed words.now space table.now }
    ensures { LeastWhere (TableShown words.now row space table.now (slots_of table.now)) result }
{
    let mut least = None;
    for index in 0..table.slots() {
        let slot = table.place as usize + index;
        least = lower(least, flaw_at(words, roles, row, space, table.level, slot));
    }
    least
}

/// The least place of a flaw of a row that the slots of listed tables show.
fn least_in_trie(
    words: &[u64],
    roles: &[u8],
    row: Row,
    space: Space,
    tables: &[Table],
) -> Option<u64>
    requires least { 520 ≤ length words.now }
    requires short { length words.now ≤ 67108864 }
    requires ready { IsReadyFor words.now roles.now row }
    requires tables { AreTables words.now space tables.now }
    ensures { LeastWhere (TrieShown words.now row space tables.now (length tables.now)) result }
{
    let mut least = None;
    for table in tables {
        least = lower(least, least_in_table(words, roles, row, space, table));
    }
    least
}

/// The least place of a flaw of each row that a slot shows. An empty one shows none.
#[inline(always)]
fn leasts_at(
    words: &[u64],
    roles: &[u8],
    rows: Rows,
    space: Space,
    level: u8,
    slot: usize,
) -> Leasts
    requires least { 520 ≤ length words.now }
    requires slot { slot < length words.now }
    requires ready { AreReadyFor words.now roles.now rows }
    requires short { length words.now ≤ 67108864 }
    ensures { LeastOfEach (λ row p. Shown words.now row space level slot p) rows result }
{
    if words[slot] == 0 {
        return Leasts::none();
    }
    Leasts {
        first: flaw_at(words, roles, rows.first, space, level, slot),
        second: flaw_at(words, roles, rows.second, space, level, slot),
        third: flaw_at(words, roles, rows.third, space, level, slot),
    }
}

/// The least place of a flaw of each row that the slots of a table show.
#[inline(always)]
fn leasts_in_table(words: &[u64], roles: &[u8], rows: Rows, space: Space, table: &Table) -> Leasts
    requires least { 520 ≤ length words.now }
    requires short { length words.now ≤ 67108864 }
    requires ready { AreReadyFor words.now roles.now rows }
    requires led { IsLed words.now space table.now }
    ensures { LeastOfEach (λ row. TableShown words.now row space table.now (slots_of table.now)) rows result }
{
    let mut leasts = Leasts::none();
    for index in 0..table.slots() {
        let slot = table.place as usize + index;
        leasts = leasts.lower(leasts_at(words, roles, rows, space, table.level, slot));
    }
    leasts
}

/// The least place of a flaw of each row that the slots of listed tables show. Inlined, the rows and the space are known.
#[inline(always)]
fn leasts_in_trie(words: &[u64], roles: &[u8], rows: Rows, space: Space, tables: &[Table]) -> Leasts
    requires least { 520 ≤ length words.now }
    requires short { length words.now ≤ 67108864 }
    requires ready { AreReadyFor words.now roles.now rows }
    requires tables { AreTables words.now space tables.now }
    ensures { LeastOfEach (λ row. TrieShown words.now row space tables.now (length tables.now)) rows result }
{
    let mut leasts = Leasts::none();
    for table in tables {
        leasts = leasts.lower(leasts_in_table(words, roles, rows, space, table));
    }
    leasts
}

/// The least place of a flaw of each row that the slots of both tries show.
fn leasts_shown(words: &[u64], roles: &[u8], rows: Rows, tries: &Tries) -> Leasts
    requires least { 520 ≤ length words.now }
    requires short { length words.now ≤ 67108864 }
    requires ready { AreReadyFor words.now roles.now rows }
    requires tries { AreTries words.now tries.now.objects.items tries.now.actions.items }
    ensures { LeastOfEach (λ row p. TrieShown words.now row Objects tries.now.objects.items (length tries.now.objects.items) p ⊎ TrieShown words.now row Actions tries.now.actions.items (length tries.now.actions.items) p) rows result }
{
    let objects = leasts_in_trie(words, roles, rows, Space::Objects, &tries.objects);
    let actions = leasts_in_trie(words, roles, rows, Space::Actions, &tries.actions);
    objects.lower(actions)
}

/// The least places of flaws of slots, of ranges and of paths, in this order.
pub(crate) fn least_in_slots(words: &[u64], tries: &Tries) -> Leasts
    requires least { 520 ≤ length words.now }
    requires short { length words.now ≤ 67108864 }
    requires tries { AreTries words.now tries.now.objects.items tries.now.actions.items }
    ensures slot { LeastWhere (RowOf words.now 3) result.first }
    ensures range { LeastWhere (RowOf words.now 4) result.second }
    ensures path { HasNoneBefore words.now 7 → LeastWhere (RowOf words.now 7) result.third }
{
    let rows = Rows {
        first: Row::Slot,
        second: Row::Range,
        third: Row::Path,
    };
    leasts_shown(words, &[], rows, tries)
}

/// The least place of a flaw of an action's value.
pub(crate) fn least_value(words: &[u64], roles: &[u8], tries: &Tries) -> Option<u64>
    requires least { 520 ≤ length words.now }
    requires short { length words.now ≤ 67108864 }
    requires roles { AreRoles words.now roles.now }
    requires tries { AreTries words.now tries.now.objects.items tries.now.actions.items }
    ensures { LeastWhere (RowOf words.now 12) result }
{
    least_in_trie(words, roles, Row::Value, Space::Actions, &tries.actions)
}
