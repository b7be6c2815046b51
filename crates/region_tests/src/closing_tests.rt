// A region that is closed: its words, its counter, and what was written.
ghost use Rattle.std.specs.Prelude.{◌≡◌, [], IfOk};
ghost use Rattle.cas_model.specs.Contents.{AreLawfulContents};

use crate::testing::{claim_words, fresh_region};
use cas_model::{Contents, Data, Digest, Object, Pair, Refs, Space};
use frozen_store::Frozen;
use region_words::{NotClosed, Region, RegionSeat};
use std::alloc::{AllocError, Global};
use std::test::Fail;
use test_fixtures::{ABSENT, hashed_key};

fn object(alloc: Global, bytes: &[u8]) -> Result<Object, AllocError>
    ensures bytes { IfOk result (λ object. object.data ≡ bytes.now) }
    ensures refs { IfOk result (λ object. object.refs ≡ []) }
{
    Ok(Object {
        refs: Refs::of(alloc, &[])?,
        data: Data::of(alloc, bytes)?,
    })
}

// Contents with the objects `a` and `b`, and a key whose value is the first. They are empty where the digests are alike.
fn two_and_key(alloc: Global, key: Digest) -> Result<Contents, AllocError>
    ensures { IfOk result (λ contents. AreLawfulContents contents.objects.items contents.actions.items) }
{
    let a = Digest::of(&[], b"a");
    let b = Digest::of(&[], b"b");
    if a == b {
        return Ok(Contents {
            objects: Vec::new(alloc),
            actions: Vec::new(alloc),
        });
    }
    let one = object(alloc, b"a")?;
    let two = object(alloc, b"b")?;
    Ok(Contents {
        objects: Vec::from_array(alloc, [one, two])?,
        actions: Vec::from_array(alloc, [Pair { key, value: a }])?,
    })
}

// The closed region, where there was memory.
fn closed(region: Region, seat: RegionSeat, alloc: Global) -> Result<Frozen, AllocError>
    requires { seat.table_id ≡ region.table_id }
{
    match region.close(seat, alloc) {
        Ok(closed) => Ok(closed.frozen),
        Err(NotClosed { region: _, seat: _ }) => Err(AllocError),
    }
}

#[test]
fn a_region_is_closed_as_it_was_opened(rt: HostRuntime) -> Result<(), Fail> {
    let contents = two_and_key(rt.alloc(), hashed_key(b"k"))?;
    let opened = Frozen::of_contents(rt.alloc(), &contents, 4_194_304).expect(&rt, "it fits");
    let (region, seat) = Region::of_frozen(rt.alloc(), &opened, None)?;
    let frozen = closed(region, seat, rt.alloc())?;
    assert!(rt; frozen.words() == opened.words());
    assert_eq!(rt; frozen.size(), 4_194_304);
    assert_eq!(rt; frozen.counts().objects, 2);
    assert_eq!(rt; frozen.counts().actions, 1);
    Ok(())
}

#[test]
fn a_claimed_block_is_kept(rt: HostRuntime) -> Result<(), Fail> {
    let (region, mut seat) = fresh_region(rt.alloc())?;
    let _ = claim_words(&region, &mut seat, 80);
    let frozen = closed(region, seat, rt.alloc())?;
    assert_eq!(rt; frozen.used(), 600);
    assert_eq!(rt; frozen.words().last().copied(), Some(0));
    assert_eq!(rt; frozen.look(Space::Objects, &ABSENT), None);
    Ok(())
}
