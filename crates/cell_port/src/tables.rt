// The rows that a plain port keeps.
ghost use Rattle.std.specs.Prelude.{◌≡◌, ◌+◌, ◌<◌, ◌≤◌, [], ◌∷◌, length, slice_get, None, Some, option_copied, IfOk, OnOk, OnErr};
ghost use Rattle.cas_model.specs.Tables.{place_of, record_at, cell_of, words_at, empty_start};
ghost use Rattle.cell_port.specs.Needed.{needed};
ghost use Rattle.cell_port.specs.Tables.{empty_rows, as_start};

use crate::index::Index;
use crate::searches::find_words;
use cas_model::{Cell, Content, Digest, Place, Record, Space, Words};
use std::alloc::{AllocError, Global};
use std::collections::{BTreeMap, VecDeque};
use std::marker::Model;

/// The tables of a region as plain lists, each with the newest row first: the rows of the start, and those that came
/// after it. The contents that a run publishes have no rows: their words are in the run's events. Beside the lists are maps
/// that find a bound digest, a record and a filled cell.
#[derive(Drop)]
pub struct PlainTables {
    size: u64,
    began: u64,
    counter: u64,
    old_records: VecDeque<Record>,
    old_cells: VecDeque<Cell>,
    old_contents: VecDeque<Content>,
    records: VecDeque<Record>,
    cells: VecDeque<Cell>,
    contents: VecDeque<Content>,
    index: Index,
    // The value of each filled cell, by the place of its record.
    values: BTreeMap<u64, u64>,
}

impl Model for PlainTables {
    ghost use Rattle.std.specs.Prelude.{◌≤◌, ◌++◌, []};
    ghost use Rattle.cell_port.specs.Index.{IndexesBound, IndexesCells};
    ghost use Rattle.cell_port.specs.Tables.{PlainRows};

    ghost Value = { PlainRows };

    ghost view = { λ t. record {
      start = record { size = t.size; counter = t.began; given = t.began; bound = t.old_records.items; filled = t.old_cells.items; blocks = t.old_contents.items; claims = [] };
      counter = t.counter;
      bound = t.records.items ++ t.old_records.items;
      filled = t.cells.items ++ t.old_cells.items;
      blocks = t.contents.items ++ t.old_contents.items;
    } };

    ghost invariant = { λ t. (t.counter ≤ t.size) × (t.size ≤ 67108864) × IndexesBound t.index (t.records.items ++ t.old_records.items) × IndexesCells t.values (t.cells.items ++ t.old_cells.items) };
}

impl PlainTables {
    /// The tables of a region of so many words in which nothing is stored.
    pub fn new(alloc: Global, size: u64) -> Result<PlainTables, AllocError>
        requires least { 4096 ≤ size }
        requires most { size ≤ 67108864 }
        ensures { IfOk result (λ tables. tables ≡ empty_rows size) }
    {
        Ok(PlainTables {
            size,
            began: 520,
            counter: 520,
            old_records: VecDeque::new(alloc),
            old_cells: VecDeque::new(alloc),
            old_contents: VecDeque::new(alloc),
            records: VecDeque::new(alloc),
            cells: VecDeque::new(alloc),
            contents: VecDeque::new(alloc),
            index: Index::new(alloc),
            values: BTreeMap::new(alloc),
        })
    }

    pub fn size(&self) -> u64
        ensures size { result ≡ self.now.start.size }
        ensures small { result ≤ 67108864 }
    {
        self.size
    }

    pub fn counter(&self) -> u64
        ensures counter { result ≡ self.now.counter }
        ensures within { result ≤ self.now.start.size }
    {
        self.counter
    }

    /// The place to which a digest is bound.
    pub fn place_of(&self, space: Space, digest: &Digest) -> Option<Place>
        ensures { result ≡ place_of self.now.bound space digest.now }
    {
        self.index.place_of(space, digest)
    }

    /// The record at a place.
    pub fn record_at(&self, place: Place) -> Option<Record>
        ensures { result ≡ record_at self.now.bound place.at }
    {
        self.index.record_at(place)
    }

    /// The value of the cell of the record at a place.
    pub fn cell_of(&self, place: Place) -> u64
        ensures { result ≡ cell_of self.now.filled place.at }
    {
        match self.values.get(&place.at) {
            Some(value) => *value,
            None => 0,
        }
    }

    /// The words of the content at a place.
    pub fn words_at(&self, place: u64) -> Option<&[u64]>
        ensures { option_copied result ≡ words_at self.now.blocks place }
    {
        match find_words(&self.contents, place) {
            Some(words) => Some(words),
            None => find_words(&self.old_contents, place),
        }
    }

    /// How many rows of filled cells there are.
    pub fn cell_count(&self) -> usize
        ensures { result ≡ length self.now.filled }
    {
        self.cells.len() + self.old_cells.len()
    }

    /// The row of a filled cell at an index, the newest first.
    pub fn cell(&self, index: usize) -> Cell
        requires { index < length self.now.filled }
        ensures { slice_get self.now.filled index ≡ Some result }
    {
        if index < self.cells.len() {
            return self.cells[index];
        }
        self.old_cells[index - self.cells.len()]
    }

    /// How many subtries a digest needs that the bound digests of its space do not need already.
    pub fn new_subtries(&self, space: Space, digest: &Digest) -> u64
        ensures count { result ≡ needed self.now.bound space digest.now }
        ensures most { result ≤ 62 }
    {
        self.index.new_subtries(space, digest)
    }

    /// Moves the counter.
    pub fn advance(&mut self, words: u64)
        requires { self.old.counter + words ≤ self.old.start.size }
        ensures { self.new ≡ record self.old { counter = self.old.counter + words } }
    {
        self.counter += words;
    }

    /// Binds an unbound digest.
    pub fn bind(&mut self, record_: Record) -> Result<(), AllocError>
        requires { place_of self.old.bound record_.space record_.digest ≡ None }
        ensures ok { OnOk result (self.new ≡ record self.old { bound = record_ ∷ self.old.bound }) }
        ensures err { OnErr result (self.new ≡ self.old) }
    {
        self.records.reserve(1)?;
        self.index.bind(record_)?;
        self.records.push_front_reserved(record_);
        Ok(())
    }

    /// Fills a cell with the place of a content, and publishes its words.
    pub fn publish(&mut self, of: Place, value: u64, words: Words) -> Result<(), AllocError>
        ensures ok { OnOk result (self.new ≡ record self.old {
          filled = (record { of = of; value = value }) ∷ self.old.filled;
          blocks = (record { place = value; words = words }) ∷ self.old.blocks;
        }) }
        ensures err { OnErr result (self.new ≡ self.old) }
    {
        self.cells.reserve(1)?;
        self.contents.reserve(1)?;
        self.values.insert(of.at, value)?;
        self.cells.push_front_reserved(Cell { of, value });
        self.contents.push_front_reserved(Content {
            place: value,
            words,
        });
        Ok(())
    }

    /// Fills a cell with the place of a record.
    pub fn fill(&mut self, of: Place, value: u64) -> Result<(), AllocError>
        ensures ok { OnOk result (self.new ≡ record self.old { filled = (record { of = of; value = value }) ∷ self.old.filled }) }
        ensures err { OnErr result (self.new ≡ self.old) }
    {
        self.cells.reserve(1)?;
        self.values.insert(of.at, value)?;
        self.cells.push_front_reserved(Cell { of, value });
        Ok(())
    }

    /// The rows as they stand, as those of a start.
    pub fn settled(self) -> PlainTables
        requires { self.start ≡ empty_start self.start.size }
        ensures { result ≡ record self { start = as_start self } }
    {
        let PlainTables {
            size,
            began: _,
            counter,
            old_records: no_records,
            old_cells: no_cells,
            old_contents: no_contents,
            records,
            cells,
            contents,
            index,
            values,
        } = self;
        PlainTables {
            size,
            began: counter,
            counter,
            old_records: records,
            old_cells: cells,
            old_contents: contents,
            records: no_records,
            cells: no_cells,
            contents: no_contents,
            index,
            values,
        }
    }
}
