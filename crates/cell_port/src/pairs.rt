// The actions of a plain port.
ghost use Rattle.std.specs.Prelude.{◌≡◌, List, IfOk, OnOk};
ghost use Rattle.std.specs.BTreeMap as tree;
ghost use Rattle.std.specs.FinMap as fin;
ghost use Rattle.cas_model.specs.Contents.{actions_map};
ghost use Rattle.cas_model.specs.declared.digest.Digest.{Digest};
ghost use Rattle.std.specs.Ordering.{nat_cmp};
ghost use Rattle.std.specs.Cmp.Lexicographic.{slice_cmp};
ghost use Rattle.cas_model.specs.declared.tables.Content.{Content};
ghost use Rattle.cas_model.specs.Tables.{record_at};
ghost use Rattle.cell_port.specs.FilledRows.{AreRows, HoldsPairs, HasValue, filled_pairs, row_pair, value_over};

use crate::holdings::digest_of_record;
use crate::searches::is_same_space;
use crate::tables::PlainTables;
use cas_model::{Cell, Digest, Pair, Space};
use std::alloc::{AllocError, Global};
use std::collections::BTreeMap;

/// The keys that the filled cells name, with their values, by rising key.
pub fn pairs(alloc: Global, tables: &PlainTables) -> Result<Vec<Pair>, AllocError>
    requires { (blocks : List Content) × AreRows tables.now.bound blocks tables.now.filled }
    ensures { IfOk result (λ pairs. HoldsPairs tables.now.bound tables.now.filled pairs.items) }
{
    let values = values(alloc, tables)?;
    let mut pairs = Vec::with_capacity(alloc, values.len())?;
    for (bytes, value) in &values {
        pairs.push(Pair {
            key: Digest { bytes: *bytes },
            value: *value,
        })?;
    }
    Ok(pairs)
}

// The value of each key that the filled cells name.
fn values(alloc: Global, tables: &PlainTables) -> Result<BTreeMap<[u8; 32], Digest>, AllocError>
    requires { (blocks : List Content) × AreRows tables.now.bound blocks tables.now.filled }
    ensures { IfOk result (λ values. (q : Digest) → tree.get (slice_cmp nat_cmp) values q.bytes ≡ fin.get (actions_map (filled_pairs tables.now.bound tables.now.filled)) q) }
{
    let mut values = BTreeMap::new(alloc);
    let mut i = tables.cell_count();
    while i > 0 {
        i -= 1;
        add_pair(tables, tables.cell(i), &mut values)?;
    }
    Ok(values)
}

// Adds the pair that a row names, where its record is an action's.
fn add_pair(
    tables: &PlainTables,
    cell: Cell,
    values: &mut BTreeMap<[u8; 32], Digest>,
) -> Result<(), AllocError>
    requires { HasValue tables.now.bound (record_at tables.now.bound cell.of.at) cell.value }
    ensures { OnOk result ((q : Digest) → tree.get (slice_cmp nat_cmp) values.new q.bytes ≡ value_over (row_pair tables.now.bound (record_at tables.now.bound cell.of.at) cell.value) (tree.get (slice_cmp nat_cmp) values.old q.bytes) q) }
{
    let Some(record_) = tables.record_at(cell.of) else {
        return Ok(());
    };
    if is_same_space(record_.space, Space::Actions) {
        let value = digest_of_record(tables, cell.value);
        values.insert(record_.digest.bytes, value)?;
    }
    Ok(())
}
