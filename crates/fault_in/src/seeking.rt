// Looking for an object of the tree.
ghost use Rattle.std.specs.Prelude.{IfOk, OnErr};
ghost use Rattle.cas_port.specs.Calls.{IsLawful};
ghost use Rattle.graph_db.specs.Events.{SpeaksFor};
ghost use Rattle.fault_in.specs.Order.{IsQuiet};
ghost use Rattle.fault_in.specs.Bringing.{AsksAtMost, HasSought, SeekStops};

use cas_model::{Digest, Note, Place, Space, Stage, Who};
use cas_port::{CellPort, Steps};
use std::alloc::AllocError;
use std::sync::ledger::Ledger;

// The record of a digest whose cell is filled.
pub(crate) fn seek<L: Ledger, P: CellPort>(
    port: &mut P,
    who: Who,
    digest: &Digest,
    steps: &mut Steps<L>,
) -> Result<Option<Place>, AllocError>
    requires { SpeaksFor (P.view port.old) who }
    ensures ok { IfOk result (λ place. HasSought who digest.now (P.view port.old) (P.view port.new) place) }
    ensures err { OnErr result (SeekStops who (P.view port.old) (P.view port.new)) }
    ensures lawful { IsLawful (P.view port.old) (P.view port.new) }
    ensures cost { AsksAtMost who 0 (P.view port.old) (P.view port.new) }
    ensures quiet { IsQuiet who (P.view port.old).seen (P.view port.new).seen }
{
    let note = Note {
        who,
        stage: Stage::Deep,
    };
    match port.look(note, Space::Objects, digest, steps)? {
        None => Ok(None),
        Some(place) => {
            if port.read(note, place)? == 0 {
                return Ok(None);
            }
            Ok(Some(place))
        }
    }
}
