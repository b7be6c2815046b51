// Words that are built from contents.
ghost use Rattle.std.specs.Prelude.{◌≡◌, ℕ, ◌+◌, ◌<◌, ◌≤◌, ◌++◌, [], ◌∷◌, length, replicate, sum, take, slice_index, IfOk, IfErr, OnOk};
ghost use Rattle.cas_model.specs.Content.{content_size, data_words};
ghost use Rattle.cas_model.specs.Contents.{AreLawfulContents, contents_state};
ghost use Rattle.region_core.specs.Builds.{empty_region, HasReferences, HasPlaces, HasContent, CanAddObject, AddsObject, RefusesObject, CanAddPair, AddsPair, RefusesPair, HasCertificate};
ghost use Rattle.cas_model.specs.Claims.{contents_claims};
ghost use Rattle.region_core.specs.Claims.{Refuses};
ghost use Rattle.region_core.specs.declared.insertion.BuildError.TheVariants.{Memory};
ghost use Rattle.region_core.specs.Inserts.{RefusesClaim, SameHead};
ghost use Rattle.region_core.specs.Places.{LieInOrder};
ghost use Rattle.region_core.specs.Stands.{Stands};

use crate::insertion::{BuildError, claim, insert_record};
use crate::lookup::look;
use cas_model::{Contents, Digest, Object, Pair, Space, content_length, data_word, head_word};
use std::alloc::{AllocError, Global};

/// The words of a region of this size in which nothing is stored: the header, and two roots of empty slots.
#[tactic(auto, unfolding(crate::specs::Builds::empty_region))]
pub fn empty_words(alloc: Global, size: u64) -> Result<Vec<u64>, AllocError>
    ensures { IfOk result (λ words. words.items ≡ empty_region size) }
{
    let mut words = Vec::from_array(alloc, [0x5344_524F_5753_4143, 1, size, 520])?;
    words.resize(520, 0)?;
    Ok(words)
}

/// Pushes the places of the records of references. The words before `end` are those of a region.
fn push_references(words: &mut Vec<u64>, end: usize, refs: &[Digest]) -> Result<(), BuildError>
    requires end { end ≤ length words.old.items }
    requires references { HasReferences (take end words.old.items) refs.now }
    ensures places { OnOk result (HasPlaces (take end words.old.items) words.old.items words.new.items refs.now) }
    ensures refused { IfErr result (λ error. error ≡ Memory) }
{
    for reference in refs {
        match look(&words[..end], Space::Objects, reference) {
            Some(place) => words.push(place.at)?,
            None => unreachable!(),
        }
    }
    Ok(())
}

/// Pushes the words of data.
fn push_data(words: &mut Vec<u64>, bytes: &[u8]) -> Result<(), BuildError>
    ensures words { OnOk result (words.new.items ≡ words.old.items ++ data_words bytes.now) }
    ensures fits { (i : ℕ) → slice_index bytes.now i < 256 }
    ensures refused { IfErr result (λ error. error ≡ Memory) }
{
    for index in 0..bytes.len().div_ceil(8) {
        words.push(data_word(bytes, index as u64))?;
    }
    Ok(())
}

/// Claims and pushes the content of an object whose references have records. The answer is its place.
fn push_content(words: &mut Vec<u64>, size: u64, object: &Object) -> Result<u64, BuildError>
    requires size { size ≤ 67108864 }
    requires fits { length words.old.items ≤ size }
    requires few { length object.now.refs ≤ 65535 }
    requires short { length object.now.data ≤ 16777215 }
    requires references { HasReferences words.old.items object.now.refs }
    ensures place { IfOk result (λ place. place ≡ length words.old.items) }
    ensures content { OnOk result (HasContent words.old.items words.new.items object.now) }
    ensures bytes { OnOk result ((i : ℕ) → slice_index object.now.data i < 256) }
    ensures within { OnOk result (length words.new.items ≤ size) }
    ensures refused { IfErr result (λ error. RefusesClaim (length words.old.items) (content_size (length object.now.refs) (length object.now.data)) size error) }
{
    let refs = object.refs.list();
    let bytes = object.data.list();
    let place = words.len();
    claim(
        place as u64,
        content_length(refs.len() as u64, bytes.len() as u64),
        size,
    )?;
    words.push(head_word(refs.len() as u64, bytes.len() as u64))?;
    push_references(words, place, refs)?;
    push_data(words, bytes)?;
    Ok(place as u64)
}

/// Adds an object: its record, the subtries that it needs, and its content.
fn add_object(words: &mut Vec<u64>, size: u64, object: &Object) -> Result<(), BuildError>
    requires size { size ≤ 67108864 }
    requires fits { length words.old.items ≤ size }
    requires can { CanAddObject words.old.items object.now }
    ensures added { OnOk result (AddsObject words.old.items words.new.items object.now) }
    ensures head { OnOk result (SameHead words.old.items words.new.items) }
    ensures within { OnOk result (length words.new.items ≤ size) }
    ensures refused { IfErr result (λ error. RefusesObject words.old.items size object.now error) }
{
    let digest = Digest::of(object.refs.list(), object.data.list());
    let owner = insert_record(words, size, Space::Objects, &digest)?;
    let content = push_content(words, size, object)?;
    words[owner.at as usize + 4] = content;
    Ok(())
}

/// Adds a key with its value: its record and the subtries that it needs.
fn add_pair(words: &mut Vec<u64>, size: u64, pair: &Pair) -> Result<(), BuildError>
    requires size { size ≤ 67108864 }
    requires fits { length words.old.items ≤ size }
    requires can { CanAddPair words.old.items pair.now }
    ensures added { OnOk result (AddsPair words.old.items words.new.items pair.now) }
    ensures head { OnOk result (SameHead words.old.items words.new.items) }
    ensures within { OnOk result (length words.new.items ≤ size) }
    ensures refused { IfErr result (λ error. RefusesPair words.old.items size pair.now error) }
{
    let Some(value) = look(words, Space::Objects, &pair.value) else {
        unreachable!();
    };
    let owner = insert_record(words, size, Space::Actions, &pair.key)?;
    words[owner.at as usize + 4] = value.at;
    Ok(())
}

/// The words below the counter of a region of this size that holds just these contents: the objects in their
/// order, each with its record, its subtries and its content, and then the actions, each with its record and its
/// subtries. The order is this project's own. The first block lies at 520, and each further one at the place behind
/// the claims before it.
///
/// It fails with `Full` at the first claim that passes the end of the region, and with `Memory` where there is none.
pub fn build(alloc: Global, contents: &Contents, size: u64) -> Result<Vec<u64>, BuildError>
    requires least { 4096 ≤ size }
    requires most { size ≤ 67108864 }
    requires lawful { AreLawfulContents contents.now.objects.items contents.now.actions.items }
    ensures stands { IfOk result (λ words. Stands words.items size (contents_state contents.now.objects.items contents.now.actions.items)) }
    ensures certified { IfOk result (λ words. HasCertificate words.items size (contents_state contents.now.objects.items contents.now.actions.items)) }
    ensures places { IfOk result (λ words. LieInOrder words.items contents.now.objects.items contents.now.actions.items) }
    ensures long { IfOk result (λ words. length words.items ≡ 520 + sum (contents_claims contents.now.objects.items contents.now.actions.items)) }
    ensures refused { IfErr result (λ error. Refuses size 520 (contents_claims contents.now.objects.items contents.now.actions.items) error) }
{
    let mut words = empty_words(alloc, size)?;
    for object in contents.objects.iter() {
        add_object(&mut words, size, object)?;
    }
    for pair in contents.actions.iter() {
        add_pair(&mut words, size, pair)?;
    }
    words[3] = words.len() as u64;
    Ok(words)
}
