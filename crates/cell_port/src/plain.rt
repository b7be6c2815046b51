// A port of one owner over plain lists, with maps that find their rows.
ghost use Rattle.std.specs.Prelude.{◌≡◌, ◌≤◌, ◌+◌, ◌*◌, ◌<◌, [], ◌∷◌, Some, None, false, IfOk, IfErr, OnOk, MatchResult};
ghost use Rattle.cas_model.specs.Contents.{AreLawfulContents};
ghost use Rattle.cas_model.specs.Tables.{empty_start};
ghost use Rattle.cas_model.specs.Tables.{place_of};
ghost use Rattle.cas_port.specs.Calls.{IsLawful, HasClaimed, ClaimRefused, BoundTo, BindRefused, Ticks, event_of};
ghost use Rattle.cas_model.specs.Claims.{contents_claims, Fit};
ghost use Rattle.cell_port.specs.Claims.{Refuses};
ghost use Rattle.cell_port.specs.FilledRows.{HoldsContents};
ghost use Rattle.cell_port.specs.Parts.{BindsExactly, OpensAt};
ghost use Rattle.cell_port.specs.Plain.{bind_events, refused_events, HasSeen};
ghost use Rattle.cell_port.specs.PlainView.{port_view, port_tables};

use crate::digest_words::digest_word;
use crate::holdings::objects;
use crate::moves::{bind_new, fill_cell, publish};
use crate::pairs::pairs;
use crate::parts::store_contents;
use crate::searches::{take_open, write_open};
use crate::shown::{ShownList, words_at};
use crate::tables::PlainTables;
use cas_history::{Act, Event};
use cas_model::{Contents, Digest, Full, NoUpstream, Note, Place, Space, Upstream};
use cas_port::{Block, Bound, CellPort, Filled, OpenBlock, PortError, Steps, Written};
use std::alloc::{AllocError, Global};
use std::collections::VecDeque;
use std::marker::Model;
use std::sync::ledger::Ledger;

/// A region of one owner, as plain lists and maps that find their rows, with the events that it has seen. It speaks for
/// every session, its calls may want memory, and its `bind` answers the level 0. It keeps a reference to its upstream, or
/// has none.
#[derive(Drop)]
pub struct PlainPort<'u, U: Upstream> {
    alloc: Global,
    up: Option<&'u U>,
    tables: PlainTables,
    // The newest first.
    opened: VecDeque<OpenBlock>,
    // The newest first. It alone has the words that were published since the start.
    events: VecDeque<Event>,
    // What was published since the start, the newest first.
    shown: ShownList,
}

impl<'u, U: Upstream> Model for PlainPort<'u, U> {
    ghost use Rattle.std.specs.Option.{option_copied};
    ghost use Rattle.cell_port.specs.Plain.{PlainValue, Keeps, upstream_of};

    ghost Value = { PlainValue U };

    ghost view = { λ p. record { up = option_copied p.up; start = p.tables.start; seen = p.events.items; opened = p.opened.items } };

    ghost invariant = { λ p. Keeps (upstream_of U.state (option_copied p.up)) p.tables p.opened.items p.events.items p.shown };
}

impl<'u> PlainPort<'u, NoUpstream> {
    /// A port of an empty region of so many words, with no upstream.
    pub fn new(alloc: Global, size: u64) -> Result<PlainPort<'u, NoUpstream>, AllocError>
        requires least { 4096 ≤ size }
        requires most { size ≤ 67108864 }
        ensures up { IfOk result (λ port. port.up ≡ None) }
        ensures start { IfOk result (λ port. port.start ≡ empty_start size) }
        ensures seen { IfOk result (λ port. port.seen ≡ []) }
        ensures opened { IfOk result (λ port. port.opened ≡ []) }
    {
        Ok(PlainPort {
            alloc,
            up: None,
            tables: PlainTables::new(alloc, size)?,
            opened: VecDeque::new(alloc),
            events: VecDeque::new(alloc),
            shown: ShownList::new(alloc),
        })
    }
}

impl<'u> PlainPort<'u, NoUpstream> {
    /// A port of a region of so many words that is opened at contents, with no upstream. It has seen nothing: what the
    /// contents hold is its start, in which the digests of their objects and the keys of their actions are bound, and no
    /// others. `Full` where a claim passes the end: for each object its record, its subtries and its content, and after
    /// the objects for each action its record and its subtries, in the contents' order; the numbers are those of the first
    /// such claim.
    pub fn from_parts(
        alloc: Global,
        contents: &Contents,
        size: u64,
    ) -> Result<PlainPort<'u, NoUpstream>, PortError>
        requires least { 4096 ≤ size }
        requires most { size ≤ 67108864 }
        requires lawful { AreLawfulContents contents.now.objects.items contents.now.actions.items }
        ensures up { IfOk result (λ port. port.up ≡ None) }
        ensures start { IfOk result (λ port. OpensAt contents.now.objects.items contents.now.actions.items size port.start) }
        ensures bound { IfOk result (λ port. BindsExactly contents.now.objects.items contents.now.actions.items port.start) }
        ensures seen { IfOk result (λ port. port.seen ≡ []) }
        ensures opened { IfOk result (λ port. port.opened ≡ []) }
        ensures refused { IfErr result (Refuses size 520 (contents_claims contents.now.objects.items contents.now.actions.items)) }
    {
        let tables = store_contents(alloc, contents, size)?;
        Ok(PlainPort {
            alloc,
            up: None,
            tables: tables.settled(),
            opened: VecDeque::new(alloc),
            events: VecDeque::new(alloc),
            shown: ShownList::new(alloc),
        })
    }
}

impl<'u, U: Upstream> PlainPort<'u, U> {
    /// The same port over another upstream, which it only reads. Nothing may have been seen yet.
    pub fn under<V: Upstream>(self, up: &'u V) -> PlainPort<'u, V>
        requires { self.seen ≡ [] }
        ensures up { result.up ≡ Some up.now }
        ensures start { result.start ≡ self.entry.start }
        ensures seen { result.seen ≡ [] }
        ensures opened { result.opened ≡ self.entry.opened }
    {
        let PlainPort {
            alloc,
            up: _,
            tables,
            opened,
            events,
            shown,
        } = self;
        PlainPort {
            alloc,
            up: Some(up),
            tables,
            opened,
            events,
            shown,
        }
    }

    /// What the port holds: the objects in the order in which they were filled, so each after those that it refers to,
    /// and the actions by rising key. They can be stored again in this order, and fit in a region of the port's size.
    pub fn contents(&self) -> Result<Contents, AllocError>
        ensures held { IfOk result (λ contents. HoldsContents (port_tables self.now) contents.objects.items contents.actions.items) }
        ensures fits { IfOk result (λ contents. Fit self.now.start.size 520 (contents_claims contents.objects.items contents.actions.items)) }
    {
        Ok(Contents {
            objects: objects(self.alloc, &self.tables, &self.events, &self.shown)?,
            actions: pairs(self.alloc, &self.tables)?,
        })
    }

    /// Gives up the port, and keeps its start and what it has seen.
    pub fn into_events(self) -> Events
        ensures start { result.start ≡ self.entry.start }
        ensures seen { result.seen ≡ self.entry.seen }
    {
        let PlainPort {
            alloc: _,
            up: _,
            tables,
            opened: _,
            events,
            shown: _,
        } = self;
        Events { tables, events }
    }
}

/// The start of a port and the events that it has seen, which contracts see. It borrows nothing.
#[derive(Drop)]
pub struct Events {
    tables: PlainTables,
    // The newest first.
    events: VecDeque<Event>,
}

impl Model for Events {
    ghost use Rattle.cell_port.specs.Plain.{EventsValue};

    ghost Value = { EventsValue };

    ghost view = { λ e. record { start = e.tables.start; seen = e.events.items } };
}

impl Events {
    /// The events, the newest first.
    pub fn list(&self) -> &VecDeque<Event>
        ensures { result.now.items ≡ self.now.seen }
    {
        &self.events
    }
}

impl<'u, U: Upstream> CellPort for PlainPort<'u, U> {
    ghost view = { λ p. port_view U.state p };

    fn look<L: Ledger>(
        &mut self,
        note: Note,
        space: Space,
        digest: &Digest,
        _steps: &mut Steps<L>,
    ) -> Result<Option<Place>, AllocError> {
        let place = self.tables.place_of(space, digest);
        let act = Act::Look(space, *digest);
        self.events.push_front(Event { note, act })?;
        Ok(place)
    }

    fn bind<L: Ledger>(
        &mut self,
        note: Note,
        space: Space,
        digest: &Digest,
        steps: &mut Steps<L>,
    ) -> Result<Bound, PortError>
        ensures bound { IfOk result (λ bound. BoundTo note space digest.now (port_view U.state self.old) (port_view U.state self.new) bound) }
        ensures stopped { IfErr result (BindRefused note (port_view U.state self.old) (port_view U.state self.new)) }
        ensures lawful { IsLawful (port_view U.state self.old) (port_view U.state self.new) }
        ensures ticks { MatchResult result (λ bound. Ticks (2 * (bound.level + 1)) steps.old steps.new) (λ _. Ticks 126 steps.old steps.new) }

        // Just these claims are made, and where one is refused it leaves the counter as it is.
        ensures seen { OnOk result (self.new.seen ≡ bind_events note space digest.now (place_of (port_tables self.old).bound space digest.now) (port_tables self.old) self.old.seen) }
        ensures refused { IfErr result (HasSeen self.old.seen self.new.seen (refused_events note (port_tables self.old) self.old.seen)) }
    {
        let _ = steps;
        if let Some(place) = self.tables.place_of(space, digest) {
            self.events.reserve(1)?;
            let act = Act::Bind(space, *digest, None);
            self.events.push_front_reserved(Event { note, act });
            return Ok(Bound { place, level: 0 });
        }
        let place = bind_new(&mut self.tables, &mut self.events, note, space, digest)?;
        Ok(Bound { place, level: 0 })
    }

    fn read(&mut self, note: Note, record_: Place) -> Result<u64, AllocError> {
        let value = self.tables.cell_of(record_);
        let act = Act::Read(record_);
        self.events.push_front(Event { note, act })?;
        Ok(value)
    }

    fn claim(&mut self, note: Note, words: u64) -> Result<Block, PortError>
        requires { 0 < words }
        ensures claimed { IfOk result (λ block. HasClaimed note words (port_view U.state self.old) (port_view U.state self.new) block) }
        ensures stopped { IfErr result (ClaimRefused note words (port_view U.state self.old) (port_view U.state self.new)) }
        ensures lawful { IsLawful (port_view U.state self.old) (port_view U.state self.new) }

        // A refused claim leaves the counter as it is.
        ensures refused { IfErr result (HasSeen self.old.seen self.new.seen (event_of note (Act.Room words false) ∷ self.old.seen)) }
    {
        self.events.reserve(1)?;
        let at = self.tables.counter();
        let size = self.tables.size();
        if size - at < words {
            let act = Act::Room(words, false);
            self.events.push_front_reserved(Event { note, act });
            let asked = words;
            return Err(PortError::Full(Full { at, asked, size }));
        }
        self.opened.reserve(1)?;
        let none = Written::none(self.alloc, words)?;
        self.opened.push_front_reserved(OpenBlock {
            place: at,
            who: note.who,
            words: none,
        });
        let act = Act::Claim(words);
        self.events.push_front_reserved(Event { note, act });
        self.tables.advance(words);
        Ok(Block::of(Place { at }, words))
    }

    fn write(&mut self, block: &mut Block, index: u64, word: u64) {
        let at = block.place().at;
        write_open(&mut self.opened, at, index, word);
    }

    fn fill(&mut self, note: Note, record_: Place, block: Block) -> Result<Filled, AllocError> {
        let at = block.place().at;
        let Some(open) = take_open(&mut self.opened, at) else {
            unreachable!()
        };
        let words = open.words.into_words();
        let filled = publish(
            &mut self.tables,
            &mut self.events,
            &mut self.shown,
            note,
            record_,
            at,
            words,
        )?;
        Ok(filled)
    }

    fn fill_place(
        &mut self,
        note: Note,
        record_: Place,
        value: Place,
    ) -> Result<Filled, AllocError> {
        let filled = fill_cell(
            self.alloc,
            &mut self.tables,
            &mut self.events,
            note,
            record_,
            value.at,
        )?;
        Ok(filled)
    }

    fn word(&mut self, place: Place, index: u64) -> u64 {
        if index < 4
            && let Some(record_) = self.tables.record_at(place)
        {
            return digest_word(&record_.digest, index);
        }
        match words_at(&self.tables, &self.events, &self.shown, place.at) {
            Some(words) => words[index as usize],
            None => 0,
        }
    }
}
