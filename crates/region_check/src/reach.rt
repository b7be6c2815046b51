// The tables that a root leads to, each entered once.
ghost use Rattle.std.specs.Prelude.{◌≡◌, ℕ, ◌+◌, ◌<◌, ◌≤◌, length, min, IfOk, OnOk};
ghost use Rattle.region_core.specs.Words.{root};
ghost use Rattle.region_check.specs.Reach.{slots_of, EnteredSlot, Entered, AreTables};

use crate::naming::table_at;
use cas_model::Space;
use region_core::root_of;
use std::alloc::{AllocError, AllocFailed, Global};

/// The level of tables that lie too deep to have one.
pub(crate) const TOO_DEEP: u8 = 64;

/// A table that a root leads to.
#[derive(Clone, Copy)]
pub(crate) struct Table {
    pub place: u32,
    /// 0 is the root. It is at most `TOO_DEEP`.
    pub level: u8,
}

impl Table {
    /// How many slots it has.
    pub(crate) fn slots(&self) -> usize
        ensures { result ≡ slots_of self.now }
    {
        if self.level == 0 { 256 } else { 16 }
    }

    // The table at a place, one level down.
    fn below(&self, place: u32) -> Table
        ensures place { result.place ≡ place }
        ensures level { result.level ≡ min (self.now.level + 1) 64 }
    {
        let level = if self.level < TOO_DEEP {
            self.level + 1
        } else {
            TOO_DEEP
        };
        Table { place, level }
    }
}

// Lists the subtrie that a slot of a table names, where it is not listed yet.
fn enter_slot(
    words: &[u64],
    table: Table,
    index: usize,
    marks: &mut [bool],
    tables: &mut Vec<Table>,
) -> Result<(), AllocFailed<Table>>
    requires short { length words.now ≤ 67108864 }
    requires slot { table.place + index < length words.now }
    requires long { length marks.old ≡ length words.now }
    ensures { OnOk result (EnteredSlot words.now table index marks.old marks.new tables.old.items tables.new.items) }
{
    match table_at(words, table.place as usize + index) {
        None => Ok(()),
        Some(place) => {
            if marks[place as usize] {
                return Ok(());
            }
            marks[place as usize] = true;
            tables.push(table.below(place as u32))
        }
    }
}

// Lists the subtries that a table names.
fn enter(
    words: &[u64],
    table: Table,
    marks: &mut [bool],
    tables: &mut Vec<Table>,
) -> Result<(), AllocFailed<Table>>
    requires short { length words.now ≤ 67108864 }
    requires slots { table.place + slots_of table ≤ length words.now }
    requires long { length marks.old ≡ length words.now }
    ensures { OnOk result (Entered words.now table (slots_of table) marks.old marks.new tables.old.items tables.new.items) }
{
    for index in 0..table.slots() {
        enter_slot(words, table, index, marks, tables)?;
    }
    Ok(())
}

/// The tables that a root leads to, each once, however many slots name it. It marks each word where one begins.
pub(crate) fn reach(alloc: Global, words: &[u64], space: Space) -> Result<Vec<Table>, AllocError>
    requires least { 520 ≤ length words.now }
    requires short { length words.now ≤ 67108864 }
    ensures { IfOk result (λ tables. AreTables words.now space tables.items) }
{
    let mut marks = vec![in alloc; false; words.len()]?;
    let mut tables = Vec::new(alloc);
    tables.push(Table {
        place: root_of(space) as u32,
        level: 0,
    })?;
    let mut next = 0;
    while next < tables.len() {
        let table = tables[next];
        enter(words, table, &mut marks, &mut tables)?;
        next += 1;
    }
    Ok(tables)
}
