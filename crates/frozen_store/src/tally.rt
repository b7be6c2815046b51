// The filled records of a trie, counted by a walk down its tables. It takes no memory.
ghost use Rattle.std.specs.Prelude.{◌≤◌, length};
ghost use Rattle.frozen_store.specs.Gathers.{HasTable, HasSlot};
ghost use Rattle.frozen_store.specs.Tallies.{Tallies, TalliesSlot, AreSoMany};
ghost use Rattle.region_core.specs.Inserts.{Region};

use cas_model::Space;
use region_core::{Slot, root_of};

/// How many filled records there are below a table of so many slots, at a level from 0 to 62.
#[cycle(tallying)]
fn tally(words: &[u64], table: u64, slots: u64, level: u32) -> u64
    requires level { level ≤ 62 }
    requires table { HasTable words.now table slots level }
    ensures { Tallies words.now table slots result }
{
    let mut count = 0;
    for index in 0..slots {
        count += tally_slot(words, table, index, level);
    }
    count
}

/// How many there are below a slot of a table.
#[cycle(tallying)]
fn tally_slot(words: &[u64], table: u64, index: u64, level: u32) -> u64
    requires level { level ≤ 62 }
    requires slot { HasSlot words.now table index level }
    ensures { TalliesSlot words.now table index result }
{
    match Slot::of(words[(table + index) as usize]) {
        Some(Slot::Empty) => 0,
        Some(Slot::Record(place)) => {
            if words[place.at as usize + 4] == 0 {
                return 0;
            }
            1
        }
        Some(Slot::Subtrie(place)) => tally(words, place.at, 16, level + 1),
        None => unreachable!(),
    }
}

/// How many filled records a trie has.
pub(crate) fn count_filled(words: &[u64], space: Space) -> u64
    requires region { Region words.now }
    requires short { length words.now ≤ 67108864 }
    ensures { AreSoMany words.now space result }
{
    tally(words, root_of(space), 256, 0)
}
