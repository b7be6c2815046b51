// Looking for a key, and giving it its value.
ghost use Rattle.std.specs.Prelude.{◌≡◌, ◌<◌, None, true, IfOk, IfErr, OnErr, OnOk};
ghost use Rattle.std.specs.FinMap as fin;
ghost use Rattle.cas_model.specs.Start.{IsFilled};
ghost use Rattle.cas_model.specs.Tables.{digest_at};
ghost use Rattle.cas_history.specs.Conduct.{is_key, missed};
ghost use Rattle.cas_history.specs.Lawful.{Agrees};
ghost use Rattle.cas_port.specs.Calls.{IsLawful};
ghost use Rattle.cas_port.specs.View.{tables};
ghost use Rattle.graph_db.specs.Events.{Reads, SpeaksFor};
ghost use Rattle.action_cache.specs.Keys.{HasKey, HasSoughtKey, KeyStops, Keeps, KeepStops};

use cas_model::{Digest, Note, Place, Space, Stage, Who};
use cas_port::{CellPort, Filled, PortError, Steps};
use std::alloc::AllocError;
use std::sync::ledger::Ledger;

// The value of the cell of a key's record: the place of the record that is its value, or 0 where the key is not bound
// or the cell not filled.
pub(crate) fn seek_key<L: Ledger, P: CellPort>(
    port: &mut P,
    who: Who,
    key: &Digest,
    steps: &mut Steps<L>,
) -> Result<u64, AllocError>
    requires { SpeaksFor (P.view port.old) who }
    ensures ok { IfOk result (λ value. HasSoughtKey who key.now (P.view port.old) (P.view port.new) value) }
    ensures err { OnErr result (KeyStops who key.now (P.view port.old) (P.view port.new)) }
    ensures lawful { IsLawful (P.view port.old) (P.view port.new) }
{
    let note = Note {
        who,
        stage: Stage::Key,
    };
    match port.look(note, Space::Actions, key, steps)? {
        None => Ok(0),
        Some(place) => port.read(note, place),
    }
}

// Binds the key and fills its cell with the record of an object, where it is not filled yet. Answers the value that
// the cell has then.
pub(crate) fn keep<L: Ledger, P: CellPort>(
    port: &mut P,
    who: Who,
    key: &Digest,
    value: Place,
    steps: &mut Steps<L>,
) -> Result<u64, PortError>
    requires speaks { SpeaksFor (P.view port.old) who }
    requires missed { missed (P.view port.old).start who is_key (P.view port.old).seen ≡ true }
    requires filled { IsFilled (tables (P.view port.old)) value.at }
    requires agrees { Agrees (fin.get (P.view port.old).upstream.cache key.now) (digest_at (tables (P.view port.old)).bound value.at) }
    ensures ok { IfOk result (λ cell. Keeps who key.now (digest_at (tables (P.view port.old)).bound value.at) (P.view port.old) (P.view port.new) cell) }
    ensures err { IfErr result (KeepStops who key.now (digest_at (tables (P.view port.old)).bound value.at) (P.view port.old) (P.view port.new)) }
    ensures lawful { IsLawful (P.view port.old) (P.view port.new) }
{
    let note = Note {
        who,
        stage: Stage::Key,
    };
    let bound = port.bind(note, Space::Actions, key, steps)?;
    match port.fill_place(note, bound.place, value)? {
        Filled::Won(cell) | Filled::Lost(cell) => Ok(cell),
    }
}

// The value of the key's cell, which is given this one where it has none.
pub(crate) fn find_or_keep<L: Ledger, P: CellPort>(
    port: &mut P,
    who: Who,
    key: &Digest,
    value: Place,
    steps: &mut Steps<L>,
) -> Result<u64, PortError>
    requires speaks { SpeaksFor (P.view port.old) who }
    requires filled { IsFilled (tables (P.view port.old)) value.at }
    requires agrees { Agrees (fin.get (P.view port.old).upstream.cache key.now) (digest_at (tables (P.view port.old)).bound value.at) }
    ensures ok { IfOk result (λ cell. Keeps who key.now (digest_at (tables (P.view port.old)).bound value.at) (P.view port.old) (P.view port.new) cell) }
    ensures err { IfErr result (KeepStops who key.now (digest_at (tables (P.view port.old)).bound value.at) (P.view port.old) (P.view port.new)) }
    ensures reads { OnOk result (HasKey (P.view port.old) key.now → Reads who (P.view port.old) (P.view port.new)) }
    ensures lawful { IsLawful (P.view port.old) (P.view port.new) }
{
    let cell = seek_key(port, who, key, steps)?;
    if cell != 0 {
        return Ok(cell);
    }
    keep(port, who, key, value, steps)
}
