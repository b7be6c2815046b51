// The upstream of a call, which may be none: then nothing is in it.
ghost use Rattle.std.specs.Prelude.{◌≡◌, ◌↔◌, false, Ok, IfOk, IfErr, option_copied};
ghost use Rattle.std.specs.FinMap as fin;
ghost use Rattle.cas_model.specs.State.{IsClosed, has};
ghost use Rattle.fault_in.specs.FaultIn.{FaultInStops, HasFaultedIn};
ghost use Rattle.graph_db.specs.Events.{SpeaksFor};
ghost use Rattle.graph_db.specs.Storing.{IsLawfulOrSame};
ghost use Rattle.unified_cas.specs.Upstream.{upstream_state};

use cas_model::{Digest, Who};
use cas_port::CellPort;
use fault_in::{FaultInError, fault_in};
use frozen_store::Frozen;
use std::alloc::Global;

// Whether it has an object.
pub(crate) fn has_object(up: Option<&Frozen>, digest: &Digest) -> bool
    ensures { result ≡ has (upstream_state (option_copied up.entry)) digest.now }
{
    match up {
        None => false,
        Some(frozen) => {
            frozen.seen();
            frozen.content_place(digest).is_some()
        }
    }
}

// The value that it has for a key.
pub(crate) fn action(up: Option<&Frozen>, key: &Digest) -> Option<Digest>
    ensures { result ≡ fin.get (upstream_state (option_copied up.entry)).cache key.now }
{
    match up {
        None => None,
        Some(frozen) => frozen.action(key),
    }
}

// What it has is closed. The body does nothing.
pub(crate) fn closed(up: Option<&Frozen>)
    ensures { IsClosed (upstream_state (option_copied up.entry)) }
{
    if let Some(frozen) = up {
        frozen.seen();
    }
}

// Brings in the tree of an object, and answers whether it has the object.
pub(crate) fn bring_tree<P: CellPort>(
    alloc: Global,
    port: &mut P,
    who: Who,
    up: Option<&Frozen>,
    digest: &Digest,
) -> Result<bool, FaultInError>
    requires speaks { SpeaksFor (P.view port.old) who }
    requires upstream { (P.view port.old).upstream ≡ upstream_state (option_copied up) }
    ensures lacks { (result ≡ Ok false) ↔ (has (upstream_state (option_copied up.entry)) digest.now ≡ false) }
    ensures ok { IfOk result (HasFaultedIn who digest.now (P.view port.old) (P.view port.new)) }
    ensures err { IfErr result (FaultInStops who digest.now (P.view port.old) (P.view port.new)) }
    ensures lawful { IsLawfulOrSame (P.view port.old) (P.view port.new) }
{
    match up {
        None => Ok(false),
        Some(frozen) => fault_in(alloc, port, who, frozen, digest),
    }
}
