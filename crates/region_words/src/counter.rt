// The steps by which blocks are claimed and written.
ghost use Rattle.std.specs.Prelude.{◌≡◌, ◌+◌, ◌<◌};
ghost use Rattle.region_words.specs.Rule.{origin, writing, AsksFor, FoundRoom, LoadsCounter, AddsToCounter, HasWordIn};

use crate::hold::Hold;
use crate::plays::{Asking, CounterAdd, CounterLoad, WordStore};
use crate::region::{Region, RegionSeat};
use cas_model::Note;
use std::marker::Brand;

// Each step is made for a claim or a block that its last arguments name, for the proof alone.
impl Region {
    fn load_counter_as<A: Asking>(&self, seat: &mut RegionSeat, _note: Note, _words: u64) -> u64
        requires own { seat.old.table_id ≡ self.now.table_id }
        requires origin { A.origin ≡ origin self.now.key }
        requires asks { AsksFor A.note A.asked seat.old.view }
        ensures own { seat.new.table_id ≡ seat.old.table_id }
        ensures told { LoadsCounter A.origin A.note A.asked seat.old.view result seat.new.view }
    {
        self.table.shared.load::<CounterLoad<A>>(&mut seat.seat, 3)
    }

    /// Loads the counter for a claim of so many words. Where the block would pass the region's end, the claim is refused
    /// at this step, without moving the counter.
    pub fn load_counter(&self, seat: &mut RegionSeat, note: Note, words: u64) -> u64
        requires own { seat.old.table_id ≡ self.now.table_id }
        requires asks { AsksFor note words seat.old.view }
        ensures own { seat.new.table_id ≡ seat.old.table_id }
        ensures told { LoadsCounter (origin self.now.key) note words seat.old.view result seat.new.view }
    {
        self.load_counter_as::<Brand>(seat, note, words)
    }

    fn add_to_counter_as<A: Asking>(
        &self,
        seat: &mut RegionSeat,
        _hold: Hold,
        _note: Note,
        words: u64,
    ) -> u64
        requires own { seat.old.table_id ≡ self.now.table_id }
        requires origin { A.origin ≡ origin self.now.key }
        requires words { A.asked ≡ words }
        requires asks { AsksFor A.note A.asked seat.old.view }
        requires room { FoundRoom A.origin A.asked seat.old.view }
        ensures own { seat.new.table_id ≡ seat.old.table_id }
        ensures told { AddsToCounter A.origin A.hold A.note A.asked seat.old.view result seat.new.view }
    {
        self.table
            .shared
            .fetch_add::<CounterAdd<A>>(&mut seat.seat, 3, words)
    }

    /// Adds so many words to the counter, after a load that found room for them. Where there was room still, they are a
    /// block of the seat's, and else the claim is refused, and has moved the counter.
    pub fn add_to_counter(&self, seat: &mut RegionSeat, hold: Hold, note: Note, words: u64) -> u64
        requires own { seat.old.table_id ≡ self.now.table_id }
        requires asks { AsksFor note words seat.old.view }
        requires room { FoundRoom (origin self.now.key) words seat.old.view }
        ensures own { seat.new.table_id ≡ seat.old.table_id }
        ensures told { AddsToCounter (origin self.now.key) hold note words seat.old.view result seat.new.view }
    {
        self.add_to_counter_as::<Brand>(seat, hold, note, words)
    }

    fn store_word_as<A: Asking>(
        &self,
        seat: &mut RegionSeat,
        _hold: Hold,
        place: u64,
        index: u64,
        word: u64,
    )
        requires own { seat.old.table_id ≡ self.now.table_id }
        requires at { (A.place ≡ place) × (A.index ≡ index) }
        requires inside { HasWordIn A.hold seat.old.view A.place A.index }
        ensures own { seat.new.table_id ≡ seat.old.table_id }
        ensures told { seat.new.view ≡ writing A.hold seat.old.view A.place A.index word }
    {
        let _ = &self.size;
        self.table
            .shared
            .store::<WordStore<A>>(&mut seat.seat, (place + index) as usize, word);
    }

    /// Stores a word into a block that the seat holds. It sees nothing.
    pub fn store_word(&self, seat: &mut RegionSeat, hold: Hold, place: u64, index: u64, word: u64)
        requires own { seat.old.table_id ≡ self.now.table_id }
        requires inside { HasWordIn hold seat.old.view place index }
        ensures own { seat.new.table_id ≡ seat.old.table_id }
        ensures told { seat.new.view ≡ writing hold seat.old.view place index word }
    {
        self.store_word_as::<Brand>(seat, hold, place, index, word);
    }
}
