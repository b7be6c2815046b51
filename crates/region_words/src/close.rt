// The end of a region.
ghost use Rattle.std.specs.Prelude.{◌≡◌, ◌≤◌, List, [], length, slice_index, IfOk, IfErr};
ghost use Rattle.std.specs.Slots.{slots_items, slots_len, IsFull};
ghost use Rattle.std.specs.Vec.{vec_capacity};
ghost use Rattle.frozen_store.specs.Seen.{IsSeen};
ghost use Rattle.region_words.specs.Closing.{Ends, StandFor, NamesTheEnd, ClosesWith, kept};
ghost use Rattle.region_words.specs.Rule.{origin};

use crate::ended::{Ended, Shut};
use crate::region::{Region, RegionSeat};
use crate::rule::{Key, RegionRule};
use crate::view::SeatView;
use atomic_table::{Closed as Rows, Seat, Table};
use frozen_store::Frozen;
use std::alloc::Global;
use std::snapshot::Snapshot;

/// A region that was closed, and its history.
#[derive(Drop)]
pub struct Closed {
    pub frozen: Frozen,
    pub ended: Ended,
}

/// There was no memory to close a region. It and the seat come back as they were.
#[derive(Drop)]
pub struct NotClosed {
    pub region: Region,
    pub seat: RegionSeat,
}

// Copies the words below the counter, or all of them where it is past the end, and sets the counter to how many they are.
fn keep_words(rows: &Rows<(), Global>, mut words: Vec<u64>, size: u64) -> Vec<u64>
    requires full { IsFull rows.now.words }
    requires long { slots_len rows.now.words ≡ size }
    requires least { (520 ≤ slice_index (slots_items rows.now.words) 3) × (520 ≤ size) }
    requires room { (words.items ≡ []) × (size ≤ vec_capacity words) }
    ensures { result.items ≡ kept size (slots_items rows.now.words) }
{
    let count = rows.word(3).min(size);
    for i in 0..count {
        words.push_reserved(rows.word(i as usize));
    }
    words[3] = count;
    words
}

// Takes the words back, with the seat that closes them: its view is one of those with which the words go.
fn stop(
    table: Table<(), SeatView, Key, RegionRule, Global>,
    seat: Seat<(), SeatView>,
) -> Rows<(), Global>
    requires own { seat.table_id ≡ table.shared.table_id }
    requires seen { IsSeen table.shared.key.primary.value }
    ensures full { IsFull result.words × IsFull result.slots }
    ensures counts { (slots_len result.words ≡ table.shared.table_id.words) × (slots_len result.slots ≡ table.shared.table_id.slots) }
    ensures ends { ClosesWith table.shared.key seat.me.0 (slots_items result.words) }
{
    table.close_with(seat)
}

impl Region {
    /// Closes the region, with its last seat: what the words hold then, and the history that led to it. It takes its
    /// memory first. Where there is none, it gives both back as they were.
    pub fn close(self, seat: RegionSeat, alloc: Global) -> Result<Closed, NotClosed>
        requires own { seat.table_id ≡ self.table_id }
        ensures ended { IfOk result (λ closed. Ends (origin self.key) seat.view closed.ended.log) }
        ensures words { IfOk result (λ closed. StandFor (origin self.key) closed.ended.log closed.frozen.words) }
        ensures tables { IfOk result (λ closed. NamesTheEnd (origin self.key) closed.ended.log closed.frozen) }
        ensures err { IfErr result (λ back. (back.region ≡ self) × (back.seat ≡ seat)) }
    {
        let Ok(room) = Vec::with_capacity(alloc, self.size as usize) else {
            return Err(NotClosed { region: self, seat });
        };
        let about = Snapshot::of(&self);
        let seen = Snapshot::of(&seat);
        let Region { table, size } = self;
        let RegionSeat {
            seat,
            number: _,
            given: _,
        } = seat;
        let rows = stop(table, seat);
        let words = keep_words(&rows, room, size);
        rows.free();
        let shut = Shut {
            region: about,
            seat: seen,
            words,
        };
        let ended = Ended::of(&shut);
        let Shut {
            region: _,
            seat: _,
            words,
        } = shut;
        let frozen = Frozen::of_closed(words);
        frozen.seen();
        Ok(Closed { frozen, ended })
    }
}
