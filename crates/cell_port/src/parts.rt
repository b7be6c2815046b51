// Storing contents in the rows of a plain port.
ghost use Rattle.std.specs.Prelude.{◌≡◌, ◌+◌, ◌≤◌, ◌∷◌, ◌++◌, [], None, length, sum, IfOk, IfErr, OnOk};
ghost use Rattle.cas_model.specs.Content.{content_words, content_size};
ghost use Rattle.cas_model.specs.Contents.{AreLawfulContents};
ghost use Rattle.cas_model.specs.Object.{object_digest};
ghost use Rattle.cas_model.specs.State.{AreBytes};
ghost use Rattle.cas_model.specs.Tables.{place_of};
ghost use Rattle.cas_model.specs.Claims.{contents_claims, record_claims};
ghost use Rattle.cell_port.specs.Claims.{Refuses};
ghost use Rattle.cell_port.specs.Needed.{bound_in};
ghost use Rattle.cell_port.specs.Parts.{at_place, places_of, with_object, with_action, StoresObjects, PutsPairs};
ghost use Rattle.cas_model.specs.declared.place.Space.TheVariants.{Objects, Actions};

use crate::moves::bind_new;
use crate::tables::PlainTables;
use cas_model::{
    Contents, Digest, Full, Note, Object, Pair, Space, Stage, Who, Words, data_word, head_word,
};
use cas_port::PortError;
use std::alloc::{AllocError, Global};
use std::collections::VecDeque;

/// The call by which contents are stored before a run begins.
const NOBODY: Note = Note {
    who: Who {
        session: 0,
        index: 0,
    },
    stage: Stage::Own,
};

/// The rows after contents are stored in their order: for each object its record, its subtries and its content, and
/// after the objects for each action its record and its subtries.
pub fn store_contents(
    alloc: Global,
    contents: &Contents,
    size: u64,
) -> Result<PlainTables, PortError>
    requires least { 4096 ≤ size }
    requires most { size ≤ 67108864 }
    requires lawful { AreLawfulContents contents.now.objects.items contents.now.actions.items }
    ensures ok { IfOk result (λ tables. PutsPairs size contents.now.objects.items contents.now.actions.items (length contents.now.actions.items) tables) }
    ensures err { IfErr result (Refuses size 520 (contents_claims contents.now.objects.items contents.now.actions.items)) }
{
    let mut tables = PlainTables::new(alloc, size)?;
    for i in 0..contents.objects.len() {
        store_object(alloc, &mut tables, &contents.objects[i])?;
    }
    for i in 0..contents.actions.len() {
        put_action(alloc, &mut tables, &contents.actions[i])?;
    }
    Ok(tables)
}

// Stores an object whose references are stored.
fn store_object(alloc: Global, tables: &mut PlainTables, object: &Object) -> Result<(), PortError>
    requires few_refs { length object.now.refs ≤ 65535 }
    requires short { length object.now.data ≤ 16777215 }
    requires unbound { place_of tables.old.bound Objects (object_digest object.now) ≡ None }
    ensures ok { OnOk result (tables.new ≡ with_object tables.old object.now) }
    ensures fits { OnOk result (tables.new.counter ≤ tables.old.start.size) }
    ensures bytes { OnOk result (AreBytes object.now.data) }
    ensures err { IfErr result (Refuses tables.old.start.size tables.old.counter (record_claims (bound_in Objects tables.old.bound) (object_digest object.now)
        ++ content_size (length object.now.refs) (length object.now.data) ∷ [])) }
{
    let digest = digest_of(object);
    let words = content_of(alloc, tables, object)?;
    let mut events = VecDeque::new(alloc);
    let record_ = bind_new(tables, &mut events, NOBODY, Space::Objects, &digest)?;
    let at = tables.counter();
    let asked = words.list().len() as u64;
    let size = tables.size();
    if size - at < asked {
        return Err(PortError::Full(Full { at, asked, size }));
    }
    tables.advance(asked);
    tables.publish(record_, at, words)?;
    Ok(())
}

// Binds a key, and fills its record with the record of its value, which is stored.
fn put_action(alloc: Global, tables: &mut PlainTables, pair: &Pair) -> Result<(), PortError>
    requires unbound { place_of tables.old.bound Actions pair.now.key ≡ None }
    ensures ok { OnOk result (tables.new ≡ with_action tables.old pair.now) }
    ensures fits { OnOk result (tables.new.counter ≤ tables.old.start.size) }
    ensures err { IfErr result (Refuses tables.old.start.size tables.old.counter (record_claims (bound_in Actions tables.old.bound) pair.now.key)) }
{
    let value = object_place(tables, &pair.value);
    let mut events = VecDeque::new(alloc);
    let record_ = bind_new(tables, &mut events, NOBODY, Space::Actions, &pair.key)?;
    tables.fill(record_, value)?;
    Ok(())
}

// The place of an object's record, or 0 where the digest is not bound.
fn object_place(tables: &PlainTables, digest: &Digest) -> u64
    ensures { result ≡ at_place (place_of tables.now.bound Objects digest.now) }
{
    match tables.place_of(Space::Objects, digest) {
        Some(place) => place.at,
        None => 0,
    }
}

fn digest_of(object: &Object) -> Digest
    ensures { result ≡ object_digest object.now }
{
    Digest::of(object.refs.list(), object.data.list())
}

// Tells contracts that data are bytes.
fn bytes_fit(data: &[u8])
    ensures { AreBytes «data».now }
{
    let _ = data.len();
}

// The words of an object's content, with the places of its references.
fn content_of(alloc: Global, tables: &PlainTables, object: &Object) -> Result<Words, AllocError>
    requires few_refs { length object.now.refs ≤ 65535 }
    requires short { length object.now.data ≤ 16777215 }
    ensures words { IfOk result (λ words. words ≡ content_words (places_of tables.now.bound object.now.refs) object.now.data) }
    ensures bytes { OnOk result (AreBytes object.now.data) }
{
    let data = object.data.list();
    bytes_fit(data);
    let length = data.len() as u64;
    let refs = object.refs.list();
    let mut words = Vec::new(alloc);
    words.push(head_word(refs.len() as u64, length))?;
    for r in refs {
        words.push(object_place(tables, r))?;
    }
    for i in 0..length.div_ceil(8) {
        words.push(data_word(data, i))?;
    }
    Ok(Words::of(words))
}
