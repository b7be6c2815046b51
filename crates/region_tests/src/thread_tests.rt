// Two threads claim from one region. No two of their blocks have a common word, and the joined seat has all numbers.
ghost use Rattle.std.specs.Prelude.{◌≡◌};
ghost use Rattle.region_words.specs.Numbers.{own_number};
ghost use Rattle.region_words.specs.Rule.{first_view, HasAllNumbers};

use crate::testing::{claim_words, fresh_region, place_of};
use region_words::{Region, RegionSeat};
use std::alloc::{AllocError, Global};
use std::test::Fail;
use std::thread::{Threads, join};

// The places of 100 blocks of 8 words.
fn hundred_places(
    alloc: Global,
    region: &Region,
    seat: &mut RegionSeat,
) -> Result<Vec<u64>, AllocError>
    requires { seat.old.table_id ≡ region.now.table_id }
    ensures own { seat.new.table_id ≡ seat.old.table_id }
    ensures numbers { seat.new.view.numbers ≡ seat.old.view.numbers }
{
    let mut places = Vec::new(alloc);
    for _ in 0..100u32 {
        places.push(place_of(claim_words(region, seat, 8)))?;
    }
    Ok(places)
}

fn work(
    alloc: Global,
    region: &Region,
    mut seat: RegionSeat,
) -> (RegionSeat, Result<Vec<u64>, AllocError>)
    requires { seat.table_id ≡ region.now.table_id }
    ensures own { result.0.table_id ≡ seat.table_id }
    ensures numbers { result.0.view.numbers ≡ seat.view.numbers }
{
    let places = hundred_places(alloc, region, &mut seat);
    (seat, places)
}

fn race<R: Threads>(
    rt: &R,
    alloc: Global,
    region: &Region,
    mut first: RegionSeat,
) -> (RegionSeat, Result<Vec<u64>, AllocError>)
    requires own { first.table_id ≡ region.now.table_id }
    requires first { first.view ≡ first_view }
    ensures own { result.0.table_id ≡ region.now.table_id }
    ensures all { HasAllNumbers result.0.view }
{
    let one = first.split(region);
    let two = first.split(region);
    let (one, two) = join(
        rt,
        || -> (RegionSeat, Result<Vec<u64>, AllocError>)
            requires { one.table_id ≡ region.now.table_id }
            ensures { (result.0.table_id ≡ one.table_id) × (result.0.view.numbers ≡ one.view.numbers) }
        { work(alloc, region, one) },
        || -> (RegionSeat, Result<Vec<u64>, AllocError>)
            requires { two.table_id ≡ region.now.table_id }
            ensures { (result.0.table_id ≡ two.table_id) × (result.0.view.numbers ≡ two.view.numbers) }
        { work(alloc, region, two) },
    );
    let first = first.join(one.0, region);
    let first = first.join(two.0, region);
    (first, both(one.1, two.1))
}

// The places of both, in rising order.
fn both(
    one: Result<Vec<u64>, AllocError>,
    two: Result<Vec<u64>, AllocError>,
) -> Result<Vec<u64>, AllocError> {
    let mut all = one?;
    let more = two?;
    all.extend_from_slice(more.as_slice())?;
    all.sort()?;
    Ok(all)
}

#[test]
fn blocks_of_two_threads_lie_apart(rt: HostRuntime) -> Result<(), Fail> {
    let (region, first) = fresh_region(rt.alloc())?;
    let (first, places) = race(&rt, rt.alloc(), &region, first);
    let places = places?;
    assert_eq!(rt; first.number(), 64);
    assert_eq!(rt; places.len(), 200);
    let mut want = 520u64;
    for place in &places {
        assert_eq!(rt; *place, want);
        want = want.wrapping_add(8);
    }
    Ok(())
}
