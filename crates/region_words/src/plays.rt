// What each step tells the seat that makes it.
use crate::view::SeatView;
use atomic_table::{Join, Play, Split};
use std::marker::{Brand, PhantomData};

/// For what a step is made. Each call picks it, in its proof alone.
pub trait Asking {
    ghost use Rattle.std.specs.Prelude.{ℕ};
    ghost use Rattle.cas_model.specs.declared.note.Note.{Note};
    ghost use Rattle.region_words.specs.Running.{Origin};
    ghost use Rattle.region_words.specs.declared.hold.Hold.{Hold};

    ghost origin: { Origin };

    ghost note: { Note };

    ghost asked: { ℕ };

    ghost hold: { Hold };

    ghost place: { ℕ };

    ghost index: { ℕ };
}

impl Asking for Brand {
    ghost use Rattle.region_words.specs.Rule.{no_origin, no_note, no_hold};

    ghost origin = { no_origin };

    ghost note = { no_note };

    ghost asked = { 0 };

    ghost hold = { no_hold };

    ghost place = { 0 };

    ghost index = { 0 };
}

/// A load of the counter.
pub struct CounterLoad<A> {
    asking: PhantomData<A>,
}

impl<A: Asking> Play<(), SeatView> for CounterLoad<A> {
    ghost use Rattle.region_words.specs.Rule.{loads_counter};

    ghost then = { loads_counter A.origin A.note A.asked };
}

/// A claim's addition to the counter.
pub struct CounterAdd<A> {
    asking: PhantomData<A>,
}

impl<A: Asking> Play<(), SeatView> for CounterAdd<A> {
    ghost use Rattle.region_words.specs.Rule.{adds_to_counter};

    ghost then = { adds_to_counter A.origin A.hold A.note A.asked };
}

/// A store into a block.
pub struct WordStore<A> {
    asking: PhantomData<A>,
}

impl<A: Asking> Play<(), SeatView> for WordStore<A> {
    ghost use Rattle.region_words.specs.Rule.{writes};

    ghost then = { writes A.hold A.place A.index };
}

/// A load of word 0, for what it tells of other seats.
pub struct Hearing<A> {
    asking: PhantomData<A>,
}

impl<A: Asking> Play<(), SeatView> for Hearing<A> {
    ghost use Rattle.region_words.specs.Rule.{hears};

    ghost then = { hears A.origin };
}

/// A seat is split in two.
pub struct Splitting;

impl Split<SeatView> for Splitting {
    ghost use Rattle.region_words.specs.Rule.{splitting, next_view};

    ghost left = { splitting };

    ghost right = { next_view };
}

/// Two seats become one.
pub struct Joining;

impl Join<SeatView> for Joining {
    ghost use Rattle.region_words.specs.Rule.{joining, spent_view};

    ghost both = { joining };

    ghost spent = { spent_view };
}
