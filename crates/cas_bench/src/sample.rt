// Objects that are made up.
ghost use Rattle.std.specs.Prelude.{◌≡◌, ◌≤◌, [], length, IfOk, OnOk};
ghost use Rattle.std.specs.BTreeSet.{contains};
ghost use Rattle.cas_bench.specs.Samples.{IsSample};
ghost use Rattle.cas_model.specs.Contents.{AreLawfulContents};
ghost use Rattle.cas_model.specs.State.{digest_cmp};

use cas_model::{Contents, Data, Digest, Object, Refs};
use std::alloc::{AllocError, AllocFailed, Global};
use std::collections::BTreeSet;

/// The bytes of data of each small object.
pub const BYTES: usize = 100;

/// The bytes of data of each large object: as many as an object may have.
const LARGE: usize = 16_777_215;

/// The data of the object with a number: the number's eight bytes, the low one first, and then the low one again.
pub fn bytes_of(number: u64) -> [u8; BYTES]
    ensures { length result ≡ 100 }
{
    let low = number.to_le_bytes();
    let mut bytes = [low[0]; BYTES];
    bytes[..8].copy_from_slice(low.as_slice());
    bytes
}

/// Contents with so many small objects and no actions. An object whose digest another has is left out.
pub fn contents_of(alloc: Global, count: u64) -> Result<Contents, AllocError>
    ensures { IfOk result (λ contents. AreLawfulContents contents.objects.items contents.actions.items) }
{
    let mut known = BTreeSet::new(alloc);
    let mut objects = Vec::new(alloc);
    for number in 0..count {
        let object = object_of(alloc, number)?;
        add_object(&mut known, &mut objects, object)?;
    }
    Ok(Contents {
        objects,
        actions: Vec::new(alloc),
    })
}

/// Contents with so many objects as large as an object may be and no actions. An object whose digest another has is left out.
pub fn large_contents_of(alloc: Global, count: u64) -> Result<Contents, AllocError>
    ensures { IfOk result (λ contents. AreLawfulContents contents.objects.items contents.actions.items) }
{
    let mut known = BTreeSet::new(alloc);
    let mut objects = Vec::new(alloc);
    for number in 0..count {
        let object = large_object_of(alloc, number)?;
        add_object(&mut known, &mut objects, object)?;
    }
    Ok(Contents {
        objects,
        actions: Vec::new(alloc),
    })
}

// The small object with a number.
fn object_of(alloc: Global, number: u64) -> Result<Object, AllocError>
    ensures refs { IfOk result (λ object. object.refs ≡ []) }
    ensures short { IfOk result (λ object. length object.data ≤ 16777215) }
{
    Ok(Object {
        refs: Refs::from_vec(Vec::new(alloc)),
        data: Data::of(alloc, bytes_of(number).as_slice())?,
    })
}

// The large object with a number: its low byte, again and again.
fn large_object_of(alloc: Global, number: u64) -> Result<Object, AllocError>
    ensures refs { IfOk result (λ object. object.refs ≡ []) }
    ensures short { IfOk result (λ object. length object.data ≤ 16777215) }
{
    let bytes = vec![in alloc; number.to_le_bytes()[0]; LARGE]?;
    Ok(Object {
        refs: Refs::from_vec(Vec::new(alloc)),
        data: Data::from_vec(bytes),
    })
}

// Adds an object, where its digest is new.
fn add_object(
    known: &mut BTreeSet<Digest>,
    objects: &mut Vec<Object>,
    object: Object,
) -> Result<(), AllocError>
    requires sample { IsSample (contains digest_cmp known.old) objects.old.items }
    requires refs { object.refs ≡ [] }
    requires short { length object.data ≤ 16777215 }
    ensures { OnOk result (IsSample (contains digest_cmp known.new) objects.new.items) }
{
    let digest = Digest::of(object.refs.list(), object.data.list());
    let added = known.insert(digest)?;
    if added {
        objects.push(object)?;
    }
    Ok(())
}
