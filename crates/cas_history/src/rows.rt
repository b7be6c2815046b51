// The tables of a run in code: plain lists, the newest row first.
ghost use Rattle.std.specs.Prelude.{◌≡◌, ◌+◌, ◌∷◌, cond, IfOk, IfErr, OnOk};
ghost use Rattle.cas_model.specs.Tables.{empty_start, same_space, place_of, record_at, cell_of};
ghost use Rattle.cas_history.specs.Answers.{answer};
ghost use Rattle.cas_history.specs.End.{ended};
ghost use Rattle.cas_history.specs.Replays.{IsTooFar};
ghost use Rattle.cas_history.specs.Run.{after, bound_by, filled_by, claimed_by};

use crate::{Act, Answer, Event, ReplayError};
use cas_model::{Cell, Content, Digest, Place, Record, Space, Who, Words};
use std::alloc::{AllocError, Global};
use std::marker::Model;

/// A block that a claim gave, and the call that it was given to. The place and the length are in words.
#[derive(Clone, Copy, Debug, PartialEq, Eq)]
pub struct ClaimedBlock {
    pub who: Who,
    pub place: u64,
    pub length: u64,
}

impl Model for ClaimedBlock {
    ghost use Rattle.cas_model.specs.Tables.{Claimed};

    ghost Value = { Claimed };

    ghost view = { λ c. record { who = c.who; place = c.place; length = c.length } };

    ghost inverse = { λ c. record { who = c.who; place = c.place; length = c.length } };
}

/// The tables of a region at one moment. Sizes and places are in words.
#[derive(Drop)]
pub struct Rows {
    size: u64,
    counter: u64,
    given: u64,
    bound: Vec<Record>,
    filled: Vec<Cell>,
    blocks: Vec<Content>,
    claims: Vec<ClaimedBlock>,
}

impl Model for Rows {
    ghost use Rattle.cas_model.specs.Tables.{Tables};

    ghost Value = { Tables };

    ghost view = { λ r. record { size = r.size; counter = r.counter; given = r.given; bound = r.bound.items; filled = r.filled.items; blocks = r.blocks.items; claims = r.claims.items } };
}

impl Rows {
    /// The tables of a region of so many words in which nothing is stored.
    pub fn empty(alloc: Global, size: u64) -> Rows
        ensures { result ≡ empty_start size }
    {
        Rows {
            size,
            counter: 520,
            given: 520,
            bound: Vec::new(alloc),
            filled: Vec::new(alloc),
            blocks: Vec::new(alloc),
            claims: Vec::new(alloc),
        }
    }

    /// The region's size.
    pub fn size(&self) -> u64
        ensures { result ≡ self.now.size }
    {
        self.size
    }

    /// The place of the next block.
    pub fn counter(&self) -> u64
        ensures { result ≡ self.now.counter }
    {
        self.counter
    }

    /// The end of the words that the start or a claim gave.
    pub fn given(&self) -> u64
        ensures { result ≡ self.now.given }
    {
        self.given
    }

    /// The bound digests with the places of their records, the newest first.
    pub fn bound(&self) -> &[Record]
        ensures { result.now ≡ self.now.bound }
    {
        self.bound.as_slice()
    }

    /// The filled cells, the newest first.
    pub fn filled(&self) -> &[Cell]
        ensures { result.now ≡ self.now.filled }
    {
        self.filled.as_slice()
    }

    /// The published contents, the newest first.
    pub fn blocks(&self) -> &[Content]
        ensures { result.now ≡ self.now.blocks }
    {
        self.blocks.as_slice()
    }

    /// The claimed blocks, the newest first.
    pub fn claims(&self) -> &[ClaimedBlock]
        ensures { result.now ≡ self.now.claims }
    {
        self.claims.as_slice()
    }

    /// The place to which a digest is bound.
    pub fn place_of(&self, space: Space, digest: &Digest) -> Option<Place>
        ensures { result ≡ place_of self.now.bound space digest.now }
    {
        find_place(self.bound.as_slice(), space, digest)
    }

    /// The record at a place.
    pub fn record_at(&self, place: u64) -> Option<Record>
        ensures { result ≡ record_at self.now.bound place }
    {
        find_record(self.bound.as_slice(), place)
    }

    /// The value of the cell of the record at a place, 0 where nothing filled it.
    pub fn cell_of(&self, place: u64) -> u64
        ensures { result ≡ cell_of self.now.filled place }
    {
        find_cell(self.filled.as_slice(), place)
    }

    /// What an act answers.
    pub fn answer(&self, act: &Act) -> Answer
        ensures { result ≡ answer self.now act.now }
    {
        match act {
            Act::Look(space, digest) => Answer::Looked(self.place_of(*space, digest)),
            Act::Bind(space, digest, own) => Answer::Bound(match self.place_of(*space, digest) {
                Some(place) => Some(place),
                None => *own,
            }),
            Act::Read(cell) => Answer::Value(self.cell_of(cell.at)),
            Act::Claim(_) => Answer::Given(self.counter),
            Act::Room(..) => Answer::Refused(self.counter),
            Act::Fill(cell, value, _) => match self.cell_of(cell.at) {
                0 => Answer::Won(*value),
                had => Answer::Lost(had),
            },
        }
    }
}

impl Rows {
    /// The tables after an event.
    pub fn after(self, event: Event) -> Result<Rows, ReplayError>
        ensures ok { IfOk result (λ rows. rows ≡ after self event) }
        ensures err { IfErr result (λ error. IsTooFar self event.act error) }
    {
        let who = event.note.who;
        match event.act {
            Act::Look(..) | Act::Read(_) => Ok(self),
            Act::Bind(space, digest, own) => Ok(self.bound_by(space, digest, own)?),
            Act::Claim(words) => self.claimed_by(who, words),
            Act::Room(words, moved) => self.refused_by(words, moved),
            Act::Fill(cell, value, words) => Ok(self.filled_by(cell, value, words)?),
        }
    }

    /// The tables at the end of a run, from which another may start.
    pub fn ended(mut self) -> Rows
        ensures { result ≡ ended self }
    {
        let end = self.counter.min(self.size);
        self.counter = end;
        self.given = end;
        self.claims.clear();
        self
    }

    // Binds a digest, where it is not bound, to a record of the event's own.
    fn bound_by(
        mut self,
        space: Space,
        digest: Digest,
        own: Option<Place>,
    ) -> Result<Rows, AllocError>
        ensures { IfOk result (λ rows. rows ≡ bound_by self space digest (place_of self.bound space digest) own) }
    {
        if let (None, Some(place)) = (self.place_of(space, &digest), own) {
            let record = Record {
                space,
                digest,
                place,
            };
            put_front(&mut self.bound, record)?;
        }
        Ok(self)
    }

    // Gives a call the block at the counter.
    fn claimed_by(mut self, who: Who, words: u64) -> Result<Rows, ReplayError>
        ensures ok { IfOk result (λ rows. rows ≡ claimed_by self who words) }
        ensures err { IfErr result (λ error. IsTooFar self (Act.Claim words) error) }
    {
        let place = self.counter;
        let Some(end) = place.checked_add(words) else {
            return Err(ReplayError::TooFar);
        };
        let block = ClaimedBlock {
            who,
            place,
            length: words,
        };
        put_front(&mut self.claims, block)?;
        self.counter = end;
        self.given = end;
        Ok(self)
    }

    // A refused claim moves the counter, or leaves it.
    fn refused_by(mut self, words: u64, moved: bool) -> Result<Rows, ReplayError>
        ensures ok { IfOk result (λ rows. rows ≡ record self { counter = cond moved (self.counter + words) self.counter }) }
        ensures err { IfErr result (λ error. IsTooFar self (Act.Room words moved) error) }
    {
        if moved {
            let Some(end) = self.counter.checked_add(words) else {
                return Err(ReplayError::TooFar);
            };
            self.counter = end;
        }
        Ok(self)
    }

    // Fills a cell, where it is 0, and publishes the words.
    fn filled_by(mut self, cell: Place, value: u64, words: Words) -> Result<Rows, AllocError>
        ensures { IfOk result (λ rows. rows ≡ filled_by self (cell_of self.filled cell.at) cell value words) }
    {
        if self.cell_of(cell.at) == 0 {
            put_front(&mut self.filled, Cell { of: cell, value })?;
            if !words.list().is_empty() {
                let content = Content {
                    place: value,
                    words,
                };
                put_front(&mut self.blocks, content)?;
            }
        }
        Ok(self)
    }
}

/// Puts an item before all others.
pub fn put_front<T: Drop>(items: &mut Vec<T>, item: T) -> Result<(), AllocError>
    ensures { OnOk result (items.new.items ≡ item ∷ items.old.items) }
{
    items.insert(0, item)?;
    Ok(())
}

fn find_place(bound: &[Record], space: Space, digest: &Digest) -> Option<Place>
    ensures { result ≡ place_of bound.now space digest.now }
{
    for r in bound {
        if is_same_space(r.space, space) && r.digest.bytes == digest.bytes {
            return Some(r.place);
        }
    }
    None
}

fn is_same_space(a: Space, b: Space) -> bool
    ensures { result ≡ same_space a b }
{
    match (a, b) {
        (Space::Objects, Space::Objects) | (Space::Actions, Space::Actions) => true,
        (Space::Objects, Space::Actions) | (Space::Actions, Space::Objects) => false,
    }
}

fn find_record(bound: &[Record], place: u64) -> Option<Record>
    ensures { result ≡ record_at bound.now place }
{
    for r in bound {
        if r.place.at == place {
            return Some(*r);
        }
    }
    None
}

fn find_cell(filled: &[Cell], place: u64) -> u64
    ensures { result ≡ cell_of filled.now place }
{
    for c in filled {
        if c.of.at == place {
            return c.value;
        }
    }
    0
}
