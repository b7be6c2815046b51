// What the rows of a plain port hold.
ghost use Rattle.std.specs.Prelude.{◌≡◌, ◌≤◌, ◌++◌, length, reverse, take, drop, IsSome, IfOk, OnOk};
ghost use Rattle.cas_model.specs.Content.{content_places, content_bytes, bytes_of};
ghost use Rattle.cas_model.specs.Tables.{record_at, digest_at, digests_at, object_of};
ghost use Rattle.cell_port.specs.FilledRows.{AreBound, AreReadable, AreRows, filled_objects, row_object};
ghost use Rattle.cell_port.specs.Shown.{AreBelow, contents_of};

use crate::searches::is_same_space;
use crate::shown::{ShownList, words_at};
use crate::tables::PlainTables;
use cas_history::Event;
use cas_model::{Cell, Data, Digest, Object, Place, Refs, Space, split_head};
use std::alloc::{AllocError, Global};
use std::collections::VecDeque;

/// The objects that the filled cells name, the first one filled first.
pub fn objects(
    alloc: Global,
    tables: &PlainTables,
    events: &VecDeque<Event>,
    shown: &ShownList,
) -> Result<Vec<Object>, AllocError>
    requires below { AreBelow (length events.now.items) shown.now }
    requires rows { AreRows tables.now.bound (contents_of events.now.items shown.now tables.now) tables.now.filled }
    ensures { IfOk result (λ objects. objects.items ≡ reverse (filled_objects tables.now.bound (contents_of events.now.items shown.now tables.now) tables.now.filled)) }
{
    let mut objects = Vec::new(alloc);
    let mut i = tables.cell_count();
    while i > 0 {
        i -= 1;
        add_object(alloc, tables, events, shown, tables.cell(i), &mut objects)?;
    }
    Ok(objects)
}

// Adds the object that a row names, where its record is an object's.
fn add_object(
    alloc: Global,
    tables: &PlainTables,
    events: &VecDeque<Event>,
    shown: &ShownList,
    cell: Cell,
    objects: &mut Vec<Object>,
) -> Result<(), AllocError>
    requires below { AreBelow (length events.now.items) shown.now }
    requires readable { AreReadable tables.now.bound (contents_of events.now.items shown.now tables.now) (record_at tables.now.bound cell.of.at) cell.value }
    ensures { OnOk result (objects.new.items ≡ objects.old.items ++ row_object tables.now.bound (contents_of events.now.items shown.now tables.now) (record_at tables.now.bound cell.of.at) cell.value) }
{
    let Some(record_) = tables.record_at(cell.of) else {
        return Ok(());
    };
    if is_same_space(record_.space, Space::Objects)
        && let Some(words) = words_at(tables, events, shown, cell.value)
    {
        objects.push(read_object(alloc, tables, words)?)?;
    }
    Ok(())
}

// The object that the words of a content describe.
fn read_object(alloc: Global, tables: &PlainTables, words: &[u64]) -> Result<Object, AllocError>
    requires { AreBound tables.now.bound (content_places words.now) }
    ensures { IfOk result (λ object. object ≡ object_of tables.now.bound words.now) }
{
    let (refs, length, rest) = split_content(words);
    Ok(Object {
        refs: read_refs(alloc, tables, &rest[..refs])?,
        data: read_data(alloc, &rest[refs..], length)?,
    })
}

// The number of references and of bytes that the first word of a content tells, and the words after it.
fn split_content(words: &[u64]) -> (usize, usize, &[u64])
    ensures refs { take result.0 result.2.now ≡ content_places words.now }
    ensures bytes { take result.1 (bytes_of (drop result.0 result.2.now)) ≡ content_bytes words.now }
    ensures within { result.0 ≤ length result.2.now }
{
    match words {
        [head, rest @ ..] => {
            let (refs, length) = split_head(*head);
            ((refs as usize).min(rest.len()), length as usize, rest)
        }
        [] => (0, 0, words),
    }
}

// The digests of the records at these places.
fn read_refs(alloc: Global, tables: &PlainTables, places: &[u64]) -> Result<Refs, AllocError>
    requires { AreBound tables.now.bound places.now }
    ensures { IfOk result (λ refs. refs ≡ digests_at tables.now.bound places.now) }
{
    let mut refs = Vec::new(alloc);
    for place in places {
        refs.push(digest_of_record(tables, *place))?;
    }
    Refs::of(alloc, &refs)
}

// The digest of the record at a place.
pub fn digest_of_record(tables: &PlainTables, at: u64) -> Digest
    requires { IsSome (record_at tables.now.bound at) }
    ensures { result ≡ digest_at tables.now.bound at }
{
    let Some(record_) = tables.record_at(Place { at }) else {
        unreachable!()
    };
    record_.digest
}

// So many bytes of these words, the low one of each first.
fn read_data(alloc: Global, words: &[u64], length: usize) -> Result<Data, AllocError>
    ensures { IfOk result (λ bytes. bytes ≡ take length (bytes_of words.now)) }
{
    let mut bytes = Vec::new(alloc);
    for word in words {
        bytes.extend_from_slice(&word.to_le_bytes())?;
    }
    bytes.truncate(length);
    Data::of(alloc, &bytes)
}
