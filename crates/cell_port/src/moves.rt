// What a plain port does to its rows and its events.
ghost use Rattle.std.specs.Prelude.{◌≡◌, ◌+◌, ◌*◌, ◌<◌, ◌≤◌, ◌∷◌, [], None, length, IfOk, IfErr, OnOk, OnErr};
ghost use Rattle.std.specs.VecDeque.{deque_len, deque_capacity};
ghost use Rattle.cas_model.specs.Tables.{place_of, cell_of};
ghost use Rattle.cas_port.specs.Calls.{event_of, filled_as};
ghost use Rattle.cell_port.specs.Needed.{needed};
ghost use Rattle.cell_port.specs.Plain.{BindsNew, BindIsRefused, BindStays, bind_claims, rows_filled};
ghost use Rattle.cell_port.specs.Shown.{shown_more};

use crate::shown::{Shown, ShownList};
use crate::tables::PlainTables;
use cas_history::{Act, Event};
use cas_model::{Digest, Full, Note, Place, Record, Space, Words};
use cas_port::{Filled, PortError};
use std::alloc::{AllocError, Global};
use std::collections::VecDeque;

/// Binds an unbound digest: claims a record and the subtries that it needs, and binds it to the record. Where one of
/// the claims does not fit, those before it are made.
pub fn bind_new(
    tables: &mut PlainTables,
    events: &mut VecDeque<Event>,
    note: Note,
    space: Space,
    digest: &Digest,
) -> Result<Place, PortError>
    requires { place_of tables.old.bound space digest.now ≡ None }
    ensures ok { IfOk result (λ place. BindsNew note space digest.now tables.old tables.new events.old.items events.new.items place) }
    ensures err { IfErr result (BindStays note (needed tables.old.bound space digest.now) tables.old tables.new events.old.items events.new.items) }
    ensures within { OnErr result (tables.old.counter ≤ tables.old.start.size) }
{
    let subtries = tables.new_subtries(space, digest);
    let at = tables.counter();
    events.reserve(64)?;
    let parts = 5 + 16 * subtries;
    if tables.size() - at < parts {
        return Err(PortError::Full(refuse_bind(tables, events, note)));
    }
    let place = Place { at };
    tables.bind(Record {
        space,
        digest: *digest,
        place,
    })?;
    tables.advance(parts);
    add_claims(events, note, subtries);
    let act = Act::Bind(space, *digest, Some(place));
    events.push_front_reserved(Event { note, act });
    Ok(place)
}

// The claims of a bind that do not all fit, up to the first that is refused.
fn refuse_bind(tables: &mut PlainTables, events: &mut VecDeque<Event>, note: Note) -> Full
    requires room { deque_len events.old + 64 ≤ deque_capacity events.old }
    requires most { tables.old.start.size < tables.old.counter + 997 }
    ensures { BindIsRefused note tables.old tables.new events.old.items events.new.items result }
{
    let at = tables.counter();
    let size = tables.size();
    if size - at < 5 {
        let act = Act::Room(5, false);
        events.push_front_reserved(Event { note, act });
        return Full { at, asked: 5, size };
    }
    let granted = (size - at - 5) / 16;
    tables.advance(5 + 16 * granted);
    add_claims(events, note, granted);
    let act = Act::Room(16, false);
    events.push_front_reserved(Event { note, act });
    Full {
        at: at + 5 + 16 * granted,
        asked: 16,
        size,
    }
}

// A claim of a record, and so many claims of subtries.
fn add_claims(events: &mut VecDeque<Event>, note: Note, subtries: u64)
    requires room { deque_len events.old + subtries < deque_capacity events.old }
    ensures items { events.new.items ≡ bind_claims note subtries events.old.items }
    ensures room { deque_len events.new ≡ deque_len events.old + subtries + 1 }
    ensures capacity { deque_capacity events.new ≡ deque_capacity events.old }
{
    let act = Act::Claim(5);
    events.push_front_reserved(Event { note, act });
    for _ in 0..subtries {
        let act = Act::Claim(16);
        events.push_front_reserved(Event { note, act });
    }
}

/// Fills the cell of an object's record with a content, where it is 0. The event alone keeps the words.
pub fn publish(
    tables: &mut PlainTables,
    events: &mut VecDeque<Event>,
    shown: &mut ShownList,
    note: Note,
    of: Place,
    value: u64,
    words: Words,
) -> Result<Filled, AllocError>
    ensures answer { IfOk result (λ filled. filled ≡ filled_as (cell_of tables.old.filled of.at) value) }
    ensures rows { OnOk result (tables.new ≡ rows_filled (cell_of tables.old.filled of.at) tables.old of value []) }
    ensures events { OnOk result (events.new.items ≡ event_of note (Act.Fill of value words) ∷ events.old.items) }
    ensures shown { OnOk result (shown.new ≡ shown_more (cell_of tables.old.filled of.at) value (length events.old.items) shown.old) }
    ensures err_rows { OnErr result (tables.new ≡ tables.old) }
    ensures err_events { OnErr result (events.new.items ≡ events.old.items) }
    ensures err_shown { OnErr result (shown.new ≡ shown.old) }
{
    events.reserve(1)?;
    let had = tables.cell_of(of);
    let before = events.len();
    if had == 0 {
        let place = value;
        shown.fill(tables, of, Shown { place, before })?;
        let act = Act::Fill(of, value, words);
        events.push_front_reserved(Event { note, act });
        return Ok(Filled::Won(value));
    }
    let act = Act::Fill(of, value, words);
    events.push_front_reserved(Event { note, act });
    Ok(Filled::Lost(had))
}

/// Fills the cell of an action's record with the place of an object's, where it is 0.
pub fn fill_cell(
    alloc: Global,
    tables: &mut PlainTables,
    events: &mut VecDeque<Event>,
    note: Note,
    of: Place,
    value: u64,
) -> Result<Filled, AllocError>
    ensures answer { IfOk result (λ filled. filled ≡ filled_as (cell_of tables.old.filled of.at) value) }
    ensures rows { OnOk result (tables.new ≡ rows_filled (cell_of tables.old.filled of.at) tables.old of value []) }
    ensures events { OnOk result (events.new.items ≡ event_of note (Act.Fill of value []) ∷ events.old.items) }
    ensures err_rows { OnErr result (tables.new ≡ tables.old) }
    ensures err_events { OnErr result (events.new.items ≡ events.old.items) }
{
    events.reserve(1)?;
    let before = tables.cell_of(of);
    let words = Words::of(Vec::new(alloc));
    if before == 0 {
        tables.fill(of, value)?;
        let act = Act::Fill(of, value, words);
        events.push_front_reserved(Event { note, act });
        return Ok(Filled::Won(value));
    }
    let act = Act::Fill(of, value, words);
    events.push_front_reserved(Event { note, act });
    Ok(Filled::Lost(before))
}
