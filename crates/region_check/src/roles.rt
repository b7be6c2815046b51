// Which words are slots, and which are the cells of objects.
ghost use Rattle.std.specs.Prelude.{◌≡◌, ℕ, ◌+◌, ◌*◌, ◌/◌, ◌%◌, ◌<◌, ◌≤◌, length, slice_index, slice_set, IfOk};
ghost use Rattle.region_check.specs.Reach.{AreTables, IsLed, slots_of};
ghost use Rattle.region_check.specs.Roles.{AreRoles, AreUnclaimed, Adds, NamesCell, TableSlot, TableCell, TrieSlot, TrieCell};
ghost use Rattle.region_check.specs.Shown.{AreTries};

use crate::least::Tries;
use crate::naming::record_at;
use crate::reach::Table;
use cas_model::Space;
use std::alloc::{AllocError, Global};

/// Gives a word the role of a slot.
fn add_slot(roles: &mut [u8], slot: usize)
    requires slot { slot < length roles.old }
    requires small { AreUnclaimed roles.old }
    ensures { Adds roles.old roles.new (λ w. w ≡ slot) (λ w. ⊥) }
{
    if roles[slot] % 2 == 0 {
        roles[slot] += 1;
    }
}

/// Gives a word the role of an object's cell.
fn add_cell(roles: &mut [u8], cell: usize)
    requires cell { cell < length roles.old }
    requires small { AreUnclaimed roles.old }
    ensures { Adds roles.old roles.new (λ w. ⊥) (λ w. w ≡ cell) }
{
    if roles[cell] / 2 == 0 {
        roles[cell] += 2;
    }
}

/// Gives a slot its role, and the cell of the object's record that it names.
fn add_roles(words: &[u64], space: Space, slot: usize, roles: &mut [u8])
    requires slot { slot < length words.now }
    requires long { length roles.old ≡ length words.now }
    requires small { AreUnclaimed roles.old }
    ensures { Adds roles.old roles.new (λ w. w ≡ slot) (NamesCell words.now space slot) }
{
    add_slot(roles, slot);
    match space {
        Space::Actions => {}
        Space::Objects => match record_at(words, slot) {
            None => {}
            Some(owner) => add_cell(roles, owner as usize + 4),
        },
    }
}

/// Gives the slots of a table their roles, and the cells that they name.
fn add_table(words: &[u64], space: Space, table: &Table, roles: &mut [u8])
    requires least { 520 ≤ length words.now }
    requires led { IsLed words.now space table.now }
    requires long { length roles.old ≡ length words.now }
    requires small { AreUnclaimed roles.old }
    ensures { Adds roles.old roles.new (TableSlot table.now (slots_of table.now)) (TableCell words.now space table.now (slots_of table.now)) }
{
    for index in 0..table.slots() {
        add_roles(words, space, table.place as usize + index, roles);
    }
}

/// Gives the slots of listed tables their roles, and the cells that they name.
fn add_trie(words: &[u64], space: Space, tables: &[Table], roles: &mut [u8])
    requires least { 520 ≤ length words.now }
    requires tables { AreTables words.now space tables.now }
    requires long { length roles.old ≡ length words.now }
    requires small { AreUnclaimed roles.old }
    ensures { Adds roles.old roles.new (TrieSlot tables.now (length tables.now)) (TrieCell words.now space tables.now (length tables.now)) }
{
    for table in tables {
        add_table(words, space, table, roles);
    }
}

/// Gives all slots their roles, and the cells of all objects.
fn add_all(words: &[u64], tries: &Tries, roles: &mut [u8])
    requires least { 520 ≤ length words.now }
    requires tries { AreTries words.now tries.now.objects.items tries.now.actions.items }
    requires long { length roles.old ≡ length words.now }
    requires zeros { (w : ℕ) → slice_index roles.old w ≡ 0 }
    ensures roles { AreRoles words.now roles.new }
    ensures unclaimed { AreUnclaimed roles.new }
{
    add_trie(words, Space::Objects, &tries.objects, roles);
    add_trie(words, Space::Actions, &tries.actions, roles);
}

/// A byte for each word: whether it is a slot, and whether it is an object's cell.
pub(crate) fn roles_of(alloc: Global, words: &[u64], tries: &Tries) -> Result<Vec<u8>, AllocError>
    requires least { 520 ≤ length words.now }
    requires tries { AreTries words.now tries.now.objects.items tries.now.actions.items }
    ensures roles { IfOk result (λ roles. AreRoles words.now roles.items) }
    ensures unclaimed { IfOk result (λ roles. AreUnclaimed roles.items) }
{
    let mut roles = vec![in alloc; 0u8; words.len()]?;
    add_all(words, tries, &mut roles);
    Ok(roles)
}
