// The rows of the tables that a region's words stand for. A table is a list of rows, the newest first.
ghost use Rattle.std.specs.Prelude.{◌≡◌};

use crate::{Digest, Place, Space};
use std::marker::Model;

/// The words of a block, in order.
#[derive(Drop)]
pub struct Words(Vec<u64>);

impl Model for Words {
    ghost use Rattle.std.specs.Prelude.{List, ℕ};

    ghost Value = { List ℕ };

    ghost view = { λ w. w.0.items };
}

impl Words {
    /// These words.
    pub fn of(list: Vec<u64>) -> Words
        ensures { result ≡ list.items }
    {
        Words(list)
    }

    /// The words, in order.
    pub fn list(&self) -> &[u64]
        ensures { result.now ≡ self.now }
    {
        self.0.as_slice()
    }
}

/// A bound digest, and the place of its record.
#[derive(Clone, Copy, Debug, PartialEq, Eq)]
pub struct Record {
    pub space: Space,
    pub digest: Digest,
    pub place: Place,
}

/// The value of a filled cell, by the place of its record: the place of an object's content, or of the record
/// that is an action's value.
#[derive(Clone, Copy, Debug, PartialEq, Eq)]
pub struct Cell {
    pub of: Place,
    pub value: u64,
}

/// The words of a published content, by its place.
#[derive(Drop)]
pub struct Content {
    pub place: u64,
    pub words: Words,
}
