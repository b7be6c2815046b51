// What the words of slots say.
ghost use Rattle.std.specs.Prelude.{◌≡◌, ◌≢◌, MatchOption};
ghost use Rattle.region_core.specs.Words.{slot_word, HasPlaceWithin};

use cas_model::Place;

/// What a slot of a trie holds. The numbers are this project's own.
#[derive(Clone, Copy, Debug, PartialEq, Eq)]
pub enum Slot {
    /// Nothing: the word 0.
    Empty,
    /// The record at a place p: the word 4p + 1.
    Record(Place),
    /// The subtrie at a place p: the word 4p + 2.
    Subtrie(Place),
}

impl Slot {
    /// What a word says as a slot, and None where it is the word of no slot.
    pub fn of(word: u64) -> Option<Slot>
        ensures { MatchOption result ((slot : Slot) → slot_word slot ≢ word) (λ slot. slot_word slot ≡ word) }
    {
        let place = Place { at: word / 4 };
        match word % 4 {
            0 if word == 0 => Some(Slot::Empty),
            1 => Some(Slot::Record(place)),
            2 => Some(Slot::Subtrie(place)),
            _ => None,
        }
    }

    /// The word of a slot.
    pub fn word(&self) -> u64
        requires { HasPlaceWithin self.now }
        ensures { result ≡ slot_word self.now }
    {
        match self {
            Slot::Empty => 0,
            Slot::Record(place) => 4 * place.at + 1,
            Slot::Subtrie(place) => 4 * place.at + 2,
        }
    }
}
