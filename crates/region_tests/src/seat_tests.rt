// All 64 seats that a first seat may give, joined in the order in which they were given, and the other way round.
ghost use Rattle.std.specs.Prelude.{◌≡◌, ◌≤◌, ◌+◌, All, IfOk};
ghost use Rattle.region_words.specs.Numbers.{own_number};

use crate::testing::{claim_words, fresh_region, place_of};
use region_words::{Region, RegionSeat};
use std::alloc::{AllocError, Global};
use std::test::Fail;

// The seats with the numbers 0 to 63.
fn all_seats(
    alloc: Global,
    region: &Region,
    first: &mut RegionSeat,
) -> Result<Vec<RegionSeat>, AllocError>
    requires own { first.old.table_id ≡ region.now.table_id }
    requires first { (own_number first.old.view ≡ 64) × (first.old.view.given ≡ 0) }
    ensures own { first.new.table_id ≡ region.now.table_id }
    ensures seats { IfOk result (λ seats. All (λ s. s.table_id ≡ region.now.table_id) seats.items) }
{
    let mut seats = Vec::with_capacity(alloc, 64)?;
    for _ in 0..64u32 {
        seats.push(first.split(region))?;
    }
    Ok(seats)
}

// The first seat with all of these, joined in their order.
fn joined(region: &Region, mut first: RegionSeat, seats: Vec<RegionSeat>) -> RegionSeat
    requires own { first.table_id ≡ region.now.table_id }
    requires seats { All (λ s. s.table_id ≡ region.now.table_id) seats.items }
    ensures own { result.table_id ≡ region.now.table_id }
{
    for seat in seats {
        first = first.join(seat, region);
    }
    first
}

// The first seat with all of these, joined from the last on.
fn joined_backwards(
    region: &Region,
    mut first: RegionSeat,
    mut seats: Vec<RegionSeat>,
) -> RegionSeat
    requires own { first.table_id ≡ region.now.table_id }
    requires seats { All (λ s. s.table_id ≡ region.now.table_id) seats.items }
    ensures own { result.table_id ≡ region.now.table_id }
{
    while let Some(seat) = seats.pop() {
        first = first.join(seat, region);
    }
    first
}

fn are_numbered(seats: &[RegionSeat]) -> bool {
    seats
        .iter()
        .enumerate()
        .all(|pair| pair.1.number() as usize == pair.0)
}

#[test]
fn seats_are_joined_in_order(rt: HostRuntime) -> Result<(), Fail> {
    let (region, mut first) = fresh_region(rt.alloc())?;
    let seats = all_seats(rt.alloc(), &region, &mut first)?;
    assert_eq!(rt; seats.len(), 64);
    assert!(rt; are_numbered(seats.as_slice()));
    let mut first = joined(&region, first, seats);
    assert_eq!(rt; first.number(), 64);
    assert_eq!(rt; place_of(claim_words(&region, &mut first, 8)), 520);
    Ok(())
}

#[test]
fn seats_are_joined_backwards(rt: HostRuntime) -> Result<(), Fail> {
    let (region, mut first) = fresh_region(rt.alloc())?;
    let seats = all_seats(rt.alloc(), &region, &mut first)?;
    let mut first = joined_backwards(&region, first, seats);
    assert_eq!(rt; first.number(), 64);
    assert_eq!(rt; place_of(claim_words(&region, &mut first, 8)), 520);
    Ok(())
}
