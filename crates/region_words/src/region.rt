// A running region, and its seats.
ghost use Rattle.std.specs.Prelude.{◌≡◌, ◌≤◌};
ghost use Rattle.region_words.specs.Numbers.{own_number};
ghost use Rattle.region_words.specs.Rule.{origin};

use crate::rule::{Key, RegionRule};
use crate::view::SeatView;
use atomic_table::{Seat, Table};
use std::alloc::Global;
use std::marker::Model;

/// A region that sessions share: one table of words, each of which changes in single atomic steps.
#[derive(Drop)]
pub struct Region {
    pub(crate) table: Table<(), SeatView, Key, RegionRule, Global>,
    pub(crate) size: u64,
}

impl Model for Region {
    ghost use Rattle.std.specs.Prelude.{◌≡◌};
    ghost use Rattle.frozen_store.specs.Seen.{IsSeen};
    ghost use Rattle.region_words.specs.Rule.{origin};
    ghost use Rattle.region_words.specs.Seen.{RegionSeen};

    ghost Value = { RegionSeen };

    ghost view = { λ r. record { table_id = r.table.shared.table_id; key = r.table.shared.key } };

    ghost invariant = { λ r. (r.size ≡ (origin r.table.shared.key).start.size) × (r.table.shared.table_id.words ≡ r.size) × (r.table.shared.table_id.slots ≡ 0) × IsSeen r.table.shared.key.primary.value };
}

/// A seat at a region, with which a session makes its steps. It takes two numbers of memory, and names no lifetime.
#[derive(Drop)]
pub struct RegionSeat {
    pub(crate) seat: Seat<(), SeatView>,
    pub(crate) number: u32,
    pub(crate) given: u32,
}

impl Model for RegionSeat {
    ghost use Rattle.std.specs.Prelude.{◌≡◌, []};
    ghost use Rattle.region_words.specs.Blocks.{EndBy, all_blocks};
    ghost use Rattle.region_words.specs.Numbers.{Has, own_number};
    ghost use Rattle.region_words.specs.Seen.{SeatSeen};

    ghost Value = { SeatSeen };

    ghost view = { λ s. record { table_id = s.seat.table_id; view = s.seat.me.0 } };

    ghost invariant = { λ s. (s.number ≡ own_number s.seat.me.0) × Has s.number s.seat.me.0.numbers × (s.given ≡ s.seat.me.0.given) × (s.seat.me.1 ≡ []) × EndBy s.seat.table_id.words (all_blocks s.seat.me.0) };
}

impl Region {
    /// How many words the region has.
    pub fn size(&self) -> u64
        ensures same { result ≡ (origin self.now.key).start.size }
        ensures small { result ≤ 67108864 }
    {
        self.size
    }
}

impl RegionSeat {
    /// The seat's number, which is the session of its notes.
    pub fn number(&self) -> u32
        ensures { result ≡ own_number self.now.view }
    {
        self.number
    }
}
