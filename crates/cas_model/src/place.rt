// Places of a region, its two tries, and a claim that passes its end.
use thiserror::Error;

/// A place in a region: the number of a word, counted from 0.
#[derive(Clone, Copy, Debug, PartialEq, Eq)]
pub struct Place {
    pub at: u64,
}

/// The two tries of a region: that of the objects and that of the actions.
#[derive(Clone, Copy, Debug, PartialEq, Eq)]
pub enum Space {
    Objects,
    Actions,
}

/// A refused claim: `asked` words from the place `at` would pass the end of a region of `size` words.
#[derive(Clone, Copy, Debug, PartialEq, Eq, Drop, Error)]
#[error("{asked} words from word {at} on pass the end of a region of {size}")]
pub struct Full {
    pub at: u64,
    pub asked: u64,
    pub size: u64,
}
