// The filled records of a trie, listed by a walk down its tables.
ghost use Rattle.std.specs.Prelude.{◌≡◌, ℕ, ◌+◌, ◌≤◌, length, OnOk, IfOk};
ghost use Rattle.frozen_store.specs.Gathers.{HasTable, HasSlot, Gathers, GathersSlot, AreFilled};
ghost use Rattle.region_core.specs.Inserts.{Region};
ghost use Rattle.region_core.specs.Stands.{AreWords};

use cas_model::Space;
use region_core::{Slot, root_of};
use std::alloc::{AllocError, AllocFailed, Global};

/// Appends the places of the filled records below a table of so many slots, at a level from 0 to 62. It goes down one
/// level a call.
#[cycle(gathering)]
fn gather(
    words: &[u64],
    table: u64,
    slots: u64,
    level: u32,
    found: &mut Vec<u64>,
) -> Result<(), AllocFailed<u64>>
    requires level { level ≤ 62 }
    requires table { HasTable words.now table slots level }
    ensures { OnOk result (Gathers words.now table slots found.old.items found.new.items) }
{
    for index in 0..slots {
        gather_slot(words, table, index, level, found)?;
    }
    Ok(())
}

/// Appends the places of the filled records below a slot of a table.
#[cycle(gathering)]
fn gather_slot(
    words: &[u64],
    table: u64,
    index: u64,
    level: u32,
    found: &mut Vec<u64>,
) -> Result<(), AllocFailed<u64>>
    requires level { level ≤ 62 }
    requires slot { HasSlot words.now table index level }
    ensures { OnOk result (GathersSlot words.now table index found.old.items found.new.items) }
{
    match Slot::of(words[(table + index) as usize]) {
        Some(Slot::Empty) => Ok(()),
        Some(Slot::Record(place)) => {
            if words[place.at as usize + 4] == 0 {
                return Ok(());
            }
            found.push(place.at)?;
            Ok(())
        }
        Some(Slot::Subtrie(place)) => gather(words, place.at, 16, level + 1, found),
        None => unreachable!(),
    }
}

/// The places of the filled records of a trie, each once.
pub(crate) fn filled_records(
    alloc: Global,
    words: &[u64],
    space: Space,
) -> Result<Vec<u64>, AllocError>
    requires region { Region words.now }
    requires short { length words.now ≤ 67108864 }
    ensures { IfOk result (λ places. AreFilled words.now space places.items) }
{
    let mut found = Vec::new(alloc);
    gather(words, root_of(space), 256, 0, &mut found)?;
    Ok(found)
}

/// Each word is a number of 64 bits. The body does nothing.
pub(crate) fn words_fit(words: &[u64])
    ensures { AreWords words.now }
{
    let _length = words.len();
}
