// The events of a run.
ghost use Rattle.std.specs.Prelude.{◌≡◌};
ghost use Rattle.cas_history.specs.History.{shows_miss, value_read, value_left};

use cas_model::{Digest, Note, Place, Space, Words};

/// What one atomic step of a call did on a region. An act carries no answer: its answer follows from the start of
/// the run and from the events before it. The kinds are this project's own.
#[derive(Drop)]
pub enum Act {
    /// Looks for the record of a digest. The answer is its place, or that there is none.
    Look(Space, Digest),
    /// Binds a digest, where it is not bound yet, to a record of the call's own, which is named by its place. The
    /// answer is the place to which the digest is bound from then on. Without a record of the call's own the digest
    /// was bound before.
    Bind(Space, Digest, Option<Place>),
    /// Reads the cell of a record. The answer is its value, 0 where it is not filled.
    Read(Place),
    /// Claims so many words. The answer is the place of the block.
    Claim(u64),
    /// A claim of so many words that was refused, since the block would pass the region's end. The flag says
    /// whether the claim has moved the counter all the same.
    Room(u64, bool),
    /// Fills the cell of a record, where it is 0, with a value: the place of an object's content, whose words it
    /// publishes, or the place of the record that is an action's value, with no words. The answer is the value that
    /// the cell has from then on.
    Fill(Place, u64, Words),
}

/// An act, with the call that made it and what it is about.
#[derive(Drop)]
pub struct Event {
    pub note: Note,
    pub act: Act,
}

/// What an act answers.
#[derive(Clone, Copy, Debug, PartialEq, Eq)]
pub enum Answer {
    /// The place to which a look found its digest bound, or that it is not bound.
    Looked(Option<Place>),
    /// The place to which a bind's digest is bound from then on. It is absent only where the digest was not bound
    /// and the bind brought no record, which no lawful run has.
    Bound(Option<Place>),
    /// The value of the cell that was read, 0 where it is not filled.
    Value(u64),
    /// The place of the block that a claim was given.
    Given(u64),
    /// The place at which a refused claim would have had its block.
    Refused(u64),
    /// The fill won: the cell has its value.
    Won(u64),
    /// The cell had this value before the fill, and has it still.
    Lost(u64),
}

impl Answer {
    /// Whether a look found no record, or a read an empty cell.
    pub fn is_miss(self) -> bool
        ensures { result ≡ shows_miss self }
    {
        match self {
            Answer::Looked(found) => found.is_none(),
            Answer::Value(value) => value == 0,
            Answer::Bound(_) | Answer::Given(_) | Answer::Refused(_) => false,
            Answer::Won(_) | Answer::Lost(_) => false,
        }
    }

    /// The value that a read found, 0 for every other answer.
    pub fn value_read(self) -> u64
        ensures { result ≡ value_read self }
    {
        match self {
            Answer::Value(value) => value,
            _ => 0,
        }
    }

    /// The value that the cell has after a read or a fill of it, 0 for every other answer.
    pub fn value_left(self) -> u64
        ensures { result ≡ value_left self }
    {
        match self {
            Answer::Value(value) | Answer::Won(value) | Answer::Lost(value) => value,
            _ => 0,
        }
    }
}
