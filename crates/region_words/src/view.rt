// What a seat knows. No value of these types is made: they stand in proofs alone.
use cas_history::Event;
use cas_model::Space;
use cas_port::OpenBlock;
use std::collections::LinkedList;

/// What one of two seats had seen when they were joined, and the numbers that it had.
pub struct Heard {
    pub seen: LinkedList<Event>,
    pub numbers: LinkedList<u64>,
}

/// A table of a trie that the seat has seen named: the indexes that lead to it, the last one first, and its place.
pub struct KnownTable {
    pub space: Space,
    pub way: LinkedList<u64>,
    pub place: u64,
}

/// What a seat knows of the run, and what it has.
pub struct SeatView {
    /// The events that it has seen, the newest first.
    pub seen: LinkedList<Event>,
    /// Its own number, and then those of the seats that were joined into it.
    pub numbers: LinkedList<u64>,
    /// How many numbers it has given to seats that were split from it.
    pub given: u64,
    /// The blocks that it claimed for its caller, and has not published.
    pub blocks: LinkedList<OpenBlock>,
    /// The blocks that it claimed for a bind, and has not published. One that a bind gave up stays here.
    pub working: LinkedList<OpenBlock>,
    /// What the two seats had seen that were joined last, until its next step that sees all.
    pub heard: LinkedList<Heard>,
    /// The tables that it has seen named.
    pub known: LinkedList<KnownTable>,
    /// How often it has loaded slots and words of records.
    pub loads: u64,
    /// How often it has tried to exchange a slot.
    pub exchanges: u64,
}
