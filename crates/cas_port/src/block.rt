// Claimed blocks, and what the calls of a port answer.
ghost use Rattle.std.specs.Prelude.{◌≡◌, ◌+◌, ◌-◌, ◌<◌, ◌≤◌, ◌++◌, length, slice_set, Some, IfOk};
ghost use Rattle.std.specs.Vec.{vec_capacity};
ghost use Rattle.cas_port.specs.Blank.{none_written};
ghost use Rattle.cas_port.specs.View.{written_words};

use cas_model::{Full, Place, Who, Words};
use std::alloc::{AllocError, Global};
use std::marker::Model;
use thiserror::Error;

/// A claimed block of a region, owned by its claimer: the place of its first word, and how many words it has. It
/// says nothing by itself: which blocks are open is the port's to say.
#[derive(Debug, Drop)]
pub struct Block {
    place: Place,
    length: u64,
}

impl Block {
    /// The block of so many words at a place. A port makes it for its claim.
    pub fn of(place: Place, length: u64) -> Block
        ensures place { result.place ≡ place }
        ensures length { result.length ≡ length }
    {
        Block { place, length }
    }

    /// The place of its first word.
    pub fn place(&self) -> Place
        ensures { result ≡ self.now.place }
    {
        self.place
    }

    /// How many words it has.
    pub fn length(&self) -> u64
        ensures { result ≡ self.now.length }
    {
        self.length
    }
}

/// The words of an open block, each of them written or not. Where they are written from the first on, in order, they
/// are kept as plain words, which the block gives up as they are.
#[derive(Drop)]
pub struct Written {
    // How many words the block has. Both lists have room for as many.
    length: u64,
    // The first words, all of them written.
    words: Vec<u64>,
    // The words after these, up to the last that was written before its turn.
    later: Vec<Option<u64>>,
}

impl Model for Written {
    ghost use Rattle.std.specs.Prelude.{List, ℕ, ◌+◌, ◌≤◌, length as count};
    ghost use Rattle.std.specs.declared.option.Option.{Option};
    ghost use Rattle.std.specs.Vec.{vec_capacity};
    ghost use Rattle.cas_port.specs.Blank.{laid};

    ghost Value = { List (Option ℕ) };

    ghost view = { λ w. laid w.words.items w.later.items w.length };

    ghost invariant = { λ w. (count w.words.items + count w.later.items ≤ w.length) × (w.length ≤ vec_capacity w.words) × (w.length ≤ vec_capacity w.later) };
}

impl Written {
    /// So many words, none of them written. Room that is never used costs the system no memory.
    pub fn none(alloc: Global, length: u64) -> Result<Written, AllocError>
        ensures { IfOk result (λ words. words ≡ none_written length) }
    {
        Ok(Written {
            length,
            words: Vec::with_capacity(alloc, length as usize)?,
            later: Vec::with_capacity(alloc, length as usize)?,
        })
    }

    /// Writes the word at an index.
    pub fn set(&mut self, index: u64, word: u64)
        requires { index < length self.old }
        ensures { self.new ≡ slice_set self.old index (Some word) }
    {
        let index = index as usize;
        let count = self.words.len();
        if index < count {
            self.words[index] = word;
        } else if index == count && self.later.is_empty() {
            self.words.push_reserved(word);
        } else {
            let later = index - count;
            extend_to(&mut self.later, later + 1);
            self.later[later] = Some(word);
        }
    }

    /// Gives up the words, with 0 for those that were not written.
    pub fn into_words(self) -> Words
        ensures { result ≡ written_words self }
    {
        let Written {
            length,
            mut words,
            mut later,
        } = self;
        extend_to(&mut later, length as usize - words.len());
        append_written(&mut words, &later);
        Words::of(words)
    }
}

// Extends a list of words to so many, by ones that are not written.
fn extend_to(words: &mut Vec<Option<u64>>, count: usize)
    requires { count ≤ vec_capacity words.old }
    ensures items { words.new.items ≡ words.old.items ++ none_written (count - length words.old.items) }
    ensures capacity { vec_capacity words.new ≡ vec_capacity words.old }
{
    for _ in 0..count.saturating_sub(words.len()) {
        words.push_reserved(None);
    }
}

// Appends the written ones of these words, with 0 for the others.
fn append_written(words: &mut Vec<u64>, more: &[Option<u64>])
    requires { length words.old.items + length more.now ≤ vec_capacity words.old }
    ensures { words.new.items ≡ words.old.items ++ written_words more.now }
{
    for word in more {
        words.push_reserved(word.unwrap_or(0));
    }
}

/// A block that a port's claim gave and that no fill of the port has taken: its place, the call that claimed it,
/// and its words so far.
#[derive(Drop)]
pub struct OpenBlock {
    pub place: u64,
    pub who: Who,
    pub words: Written,
}

/// To which place a digest is bound, and the level of the trie, from 0 to 62, at which the descent to it ended. A
/// port that has no tries answers the level 0.
#[derive(Clone, Copy, Debug, PartialEq, Eq)]
pub struct Bound {
    pub place: Place,
    pub level: u32,
}

/// How a fill ended: it won, and the cell has its value; or it lost, and the cell keeps the value that it had.
#[derive(Clone, Copy, Debug, PartialEq, Eq)]
pub enum Filled {
    Won(u64),
    Lost(u64),
}

/// Why a port did not do what was asked.
#[derive(Clone, Copy, Debug, PartialEq, Eq, Drop, Error)]
pub enum PortError {
    /// A claim would have passed the region's end.
    #[error("{0}")]
    Full(Full),
    /// Memory was wanted.
    #[error("no memory")]
    Memory,
}

impl From<AllocError> for PortError {
    ghost use Rattle.std.specs.Prelude.{◌≡◌};
    ghost use Rattle.cas_port.specs.declared.block.PortError.TheVariants.{Memory};

    ghost from_gives = { λ _ e. e ≡ Memory };

    fn from(_: AllocError) -> Self {
        PortError::Memory
    }
}
