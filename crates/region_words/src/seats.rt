// A region's first seat, and how seats are split and joined.
ghost use Rattle.std.specs.Prelude.{◌≡◌, ◌-◌, ◌<◌, ◌≤◌, ◌++◌, length, replicate, option_copied, IfOk};
ghost use Rattle.region_words.specs.Numbers.{own_number};
ghost use Rattle.region_words.specs.Rule.{origin, first_view, state_of, splitting, next_view, joining, Hears, SplitsOff, TakesIn};

use crate::plays::{Asking, Hearing, Joining, Splitting};
use crate::region::{Region, RegionSeat};
use crate::rule::Key;
use atomic_table::Table;
use frozen_store::Frozen;
use std::alloc::{AllocError, Global};
use std::marker::Brand;
use std::snapshot::Snapshot;

// The words, and zeros up to so many.
fn with_zeros(alloc: Global, first: &[u64], size: usize) -> Result<Vec<u64>, AllocError>
    requires { length first.now ≤ size }
    ensures { IfOk result (λ words. words.items ≡ first.now ++ replicate (size - length first.now) 0) }
{
    let mut words = Vec::with_capacity(alloc, size)?;
    words.extend_from_slice(first)?;
    words.resize(size, 0)?;
    Ok(words)
}

// What a region is made of.
fn key_of(frozen: &Frozen, up: Option<&Frozen>) -> Key
    ensures start { result.primary.value ≡ frozen.now }
    ensures upstream { (origin result).upstream ≡ state_of (option_copied up.entry) }
{
    Key {
        primary: Snapshot::of(frozen),
        upstream: match up {
            Some(up) => Some(Snapshot::of(up)),
            None => None,
        },
    }
}

impl Region {
    /// A running region that begins with the words of a closed one, over an upstream that may be there, with its first
    /// seat, whose number is 64. The words past the counter are 0. It fails where there is no memory, of which it takes
    /// twice the words while it is made.
    pub fn of_frozen(
        alloc: Global,
        frozen: &Frozen,
        up: Option<&Frozen>,
    ) -> Result<(Region, RegionSeat), AllocError>
        ensures start { IfOk result (λ made. made.0.key.primary.value ≡ frozen.now) }
        ensures upstream { IfOk result (λ made. (origin made.0.key).upstream ≡ state_of (option_copied up.entry)) }
        ensures seat { IfOk result (λ made. (made.1.table_id ≡ made.0.table_id) × (made.1.view ≡ first_view)) }
    {
        frozen.seen();
        let size = frozen.size();
        let key = key_of(frozen, up);
        let words = with_zeros(alloc, frozen.words(), size as usize)?;
        let (table, seat) = Table::of_words(alloc, words.as_slice(), &key)?;
        drop(words);
        Ok((
            Region { table, size },
            RegionSeat {
                seat,
                number: 64,
                given: 0,
            },
        ))
    }
}

impl RegionSeat {
    fn hear_as<A: Asking>(&mut self, region: &Region)
        requires own { self.old.table_id ≡ region.now.table_id }
        requires origin { A.origin ≡ origin region.now.key }
        ensures own { self.new.table_id ≡ self.old.table_id }
        ensures told { Hears A.origin self.old.view self.new.view }
    {
        region.table.shared.load::<Hearing<A>>(&mut self.seat, 0);
    }

    // Loads word 0, for what it tells of other seats.
    fn hear(&mut self, region: &Region)
        requires own { self.old.table_id ≡ region.now.table_id }
        ensures own { self.new.table_id ≡ self.old.table_id }
        ensures told { Hears (origin region.now.key) self.old.view self.new.view }
    {
        self.hear_as::<Brand>(region);
    }

    fn cut(&mut self, region: &Region) -> RegionSeat
        requires own { self.old.table_id ≡ region.now.table_id }
        requires first { own_number self.old.view ≡ 64 }
        requires room { self.old.view.given < 64 }
        ensures own { (self.new.table_id ≡ self.old.table_id) × (result.table_id ≡ self.old.table_id) }
        ensures views { (self.new.view ≡ splitting self.old.view) × (result.view ≡ next_view self.old.view) }
    {
        let number = self.given;
        let seat = region.table.shared.split_seat::<Splitting>(&mut self.seat);
        self.given += 1;
        RegionSeat {
            seat,
            number,
            given: 0,
        }
    }

    fn glue(&mut self, other: RegionSeat, region: &Region)
        requires own { (self.old.table_id ≡ region.now.table_id) × (other.table_id ≡ region.now.table_id) }
        ensures own { self.new.table_id ≡ self.old.table_id }
        ensures view { self.new.view ≡ joining self.old.view other.view }
    {
        let RegionSeat {
            seat,
            number: _,
            given: _,
        } = other;
        region
            .table
            .shared
            .join_seat::<Joining>(&mut self.seat, seat);
    }

    /// A seat with the next number, counted from 0, which has seen as much as this one, and no event of its own session.
    pub fn split(&mut self, region: &Region) -> RegionSeat
        requires own { self.old.table_id ≡ region.now.table_id }
        requires first { own_number self.old.view ≡ 64 }
        requires room { self.old.view.given < 64 }
        ensures own { (self.new.table_id ≡ self.old.table_id) × (result.table_id ≡ self.old.table_id) }
        ensures views { SplitsOff (origin region.now.key) self.old.view self.new.view result.view }
    {
        self.hear(region);
        self.cut(region)
    }

    /// This seat, with what the other had. What it has seen goes on from what each of the two had, by events of sessions
    /// whose numbers that one has not. Where it is the first seat, and has all numbers that it gave, it has seen events of
    /// no other session.
    pub fn join(mut self, other: RegionSeat, region: &Region) -> RegionSeat
        requires own { (self.table_id ≡ region.now.table_id) × (other.table_id ≡ region.now.table_id) }
        ensures own { result.table_id ≡ self.table_id }
        ensures number { own_number result.view ≡ own_number self.view }
        ensures views { TakesIn (origin region.now.key) self.view other.view result.view }
    {
        self.glue(other, region);
        self.hear(region);
        self
    }
}
