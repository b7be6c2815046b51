// Storing and loading an object over an upstream.
ghost use Rattle.std.specs.Prelude.{◌≡◌, ◌≤◌, false, true, length, IfOk, IfErr, OnErr, OnOk, option_copied};
ghost use Rattle.cas_model.specs.Object.{digest_of};
ghost use Rattle.cas_model.specs.State.{has};
ghost use Rattle.cas_model.specs.declared.call.Call.TheVariants.{Store, Load};
ghost use Rattle.cas_history.specs.Conduct.{is_shallow, missed};
ghost use Rattle.cas_port.specs.Calls.{IsLawful};
ghost use Rattle.graph_db.specs.Events.{SpeaksFor, seen_state};
ghost use Rattle.graph_db.specs.Storing.{IsLawfulOrSame};
ghost use Rattle.graph_db.specs.Stores.{object_with};
ghost use Rattle.unified_cas.specs.Answers.{Answers};
ghost use Rattle.unified_cas.specs.Over.{AnswersKnown, BringsRefs, EndsEarly, FindStops, FindsRefs, KnownEndsEarly, LoadEndsEarly, ReadsKnown, RefsStop, SettleStops, SettlesRefs};
ghost use Rattle.unified_cas.specs.Reading.{ReadsAlone};
ghost use Rattle.unified_cas.specs.Upstream.{AreVisible, upstream_state};

use crate::replies::{misses_known, stored};
use crate::upstream::{bring_tree, has_object};
use cas_model::{Digest, Note, Reply, Stage, Who};
use cas_port::CellPort;
use fault_in::FaultInError;
use frozen_store::Frozen;
use graph_db::{holds, load, store_with_digest};
use std::alloc::{AllocError, Global};

// Loads an object. Where the upstream alone has it, its tree is brought in.
pub(crate) fn load_object<P: CellPort>(
    alloc: Global,
    port: &mut P,
    who: Who,
    up: Option<&Frozen>,
    digest: &Digest,
) -> Result<Reply, FaultInError>
    requires upstream { (P.view port.old).upstream ≡ upstream_state (option_copied up) }
    requires speaks { SpeaksFor (P.view port.old) who }
    ensures ok { IfOk result (λ reply. Answers who (Load digest.now) reply (P.view port.old) (P.view port.new)) }
    ensures err { IfErr result (LoadEndsEarly who digest.now (P.view port.old) (P.view port.new)) }
    ensures reads { IfOk result (λ reply. ReadsAlone who (Load digest.now) reply (P.view port.old) (P.view port.new)) }
    ensures lawful { IsLawful (P.view port.old) (P.view port.new) }
{
    if let Some(object) = load(alloc, port, who, digest)? {
        return Ok(Reply::Found(object));
    }
    if !bring_tree(alloc, port, who, up, digest)? {
        return Ok(Reply::Missing);
    }
    match load(alloc, port, who, digest)? {
        Some(object) => Ok(Reply::Found(object)),
        None => unreachable!(),
    }
}

// Stores an object. Its references are brought in where the upstream alone has them, and so is the object.
pub(crate) fn store_object<P: CellPort>(
    alloc: Global,
    port: &mut P,
    who: Who,
    up: Option<&Frozen>,
    refs: &[Digest],
    data: &[u8],
) -> Result<Reply, FaultInError>
    requires upstream { (P.view port.old).upstream ≡ upstream_state (option_copied up) }
    requires speaks { SpeaksFor (P.view port.old) who }
    requires few_refs { length refs.now ≤ 65535 }
    requires short { length «data».now ≤ 16777215 }
    ensures ok { IfOk result (λ reply. Answers who (Store (object_with refs.now «data».now)) reply (P.view port.old) (P.view port.new)) }
    ensures err { IfErr result (EndsEarly who (Store (object_with refs.now «data».now)) (P.view port.old) (P.view port.new)) }
    ensures reads { IfOk result (λ reply. ReadsAlone who (Store (object_with refs.now «data».now)) reply (P.view port.old) (P.view port.new)) }
    ensures lawful { IsLawful (P.view port.old) (P.view port.new) }
{
    let digest = Digest::of(refs, data);
    if has_object(up, &digest) {
        return store_known(alloc, port, who, up, refs, &digest);
    }
    store_new(alloc, port, who, up, &digest, refs, data)
}

// Stores an object that the upstream lacks. References are brought in only where the store misses one that the upstream
// has.
fn store_new<P: CellPort>(
    alloc: Global,
    port: &mut P,
    who: Who,
    up: Option<&Frozen>,
    digest: &Digest,
    refs: &[Digest],
    data: &[u8],
) -> Result<Reply, FaultInError>
    requires upstream { (P.view port.old).upstream ≡ upstream_state (option_copied up) }
    requires speaks { SpeaksFor (P.view port.old) who }
    requires few_refs { length refs.now ≤ 65535 }
    requires short { length «data».now ≤ 16777215 }
    requires digest { digest.now ≡ digest_of refs.now «data».now }
    requires lacks { has (upstream_state (option_copied up)) digest.now ≡ false }
    ensures ok { IfOk result (λ reply. Answers who (Store (object_with refs.now «data».now)) reply (P.view port.old) (P.view port.new)) }
    ensures err { IfErr result (EndsEarly who (Store (object_with refs.now «data».now)) (P.view port.old) (P.view port.new)) }
    ensures reads { IfOk result (λ reply. ReadsAlone who (Store (object_with refs.now «data».now)) reply (P.view port.old) (P.view port.new)) }
    ensures lawful { IsLawful (P.view port.old) (P.view port.new) }
{
    let first = store_with_digest(port, who, digest, refs, data);
    if !misses_known(up, &first) {
        return stored(first);
    }
    if let Some(reply) = settle_refs(alloc, port, who, up, refs)? {
        return Ok(reply);
    }
    stored(store_with_digest(port, who, digest, refs, data))
}

// Stores an object that the upstream has.
fn store_known<P: CellPort>(
    alloc: Global,
    port: &mut P,
    who: Who,
    up: Option<&Frozen>,
    refs: &[Digest],
    digest: &Digest,
) -> Result<Reply, FaultInError>
    requires upstream { (P.view port.old).upstream ≡ upstream_state (option_copied up) }
    requires speaks { SpeaksFor (P.view port.old) who }
    requires few_refs { length refs.now ≤ 65535 }
    requires known { has (upstream_state (option_copied up)) digest.now ≡ true }
    ensures ok { IfOk result (AnswersKnown who refs.now digest.now (P.view port.old) (P.view port.new)) }
    ensures err { IfErr result (KnownEndsEarly who refs.now digest.now (P.view port.old) (P.view port.new)) }
    ensures reads { IfOk result (ReadsKnown who refs.now digest.now (P.view port.old) (P.view port.new)) }
    ensures lawful { IsLawful (P.view port.old) (P.view port.new) }
{
    if let Some(reply) = settle_refs(alloc, port, who, up, refs)? {
        return Ok(reply);
    }
    let note = Note {
        who,
        stage: Stage::Own,
    };
    if holds(port, note, digest)? {
        return Ok(Reply::Stored(*digest));
    }
    bring_tree(alloc, port, who, up, digest)?;
    if !holds(port, note, digest)? {
        unreachable!();
    }
    Ok(Reply::Stored(*digest))
}

// Looks for a store's references, and brings in those that the upstream alone has. It answers the store where a reference
// is absent.
fn settle_refs<P: CellPort>(
    alloc: Global,
    port: &mut P,
    who: Who,
    up: Option<&Frozen>,
    refs: &[Digest],
) -> Result<Option<Reply>, FaultInError>
    requires upstream { (P.view port.old).upstream ≡ upstream_state (option_copied up) }
    requires speaks { SpeaksFor (P.view port.old) who }
    requires few_refs { length refs.now ≤ 65535 }
    ensures ok { IfOk result (SettlesRefs who refs.now (P.view port.old) (P.view port.new)) }
    ensures err { IfErr result (SettleStops who refs.now (P.view port.old) (P.view port.new)) }
    ensures lawful { IsLawfulOrSame (P.view port.old) (P.view port.new) }
    ensures asked { OnErr result (IsLawful (P.view port.old) (P.view port.new)) }
{
    match find_refs(port, who, up, refs)? {
        FoundRefs::All => Ok(None),
        FoundRefs::Lacking => {
            bring_refs(alloc, port, who, up, refs)?;
            Ok(None)
        }
        FoundRefs::Absent { index, digest } => Ok(Some(Reply::Dangling { index, digest })),
    }
}

// What a store found of its references.
#[derive(Clone, Copy)]
enum FoundRefs {
    // The primary has each.
    All,
    // The primary or the upstream has each, and the primary lacks one.
    Lacking,
    // The first that is absent.
    Absent { index: u32, digest: Digest },
}

// Looks for each reference, in order, up to the first that is absent.
fn find_refs<P: CellPort>(
    port: &mut P,
    who: Who,
    up: Option<&Frozen>,
    refs: &[Digest],
) -> Result<FoundRefs, AllocError>
    requires upstream { (P.view port.old).upstream ≡ upstream_state (option_copied up) }
    requires speaks { SpeaksFor (P.view port.old) who }
    requires few_refs { length refs.now ≤ 65535 }
    ensures ok { IfOk result (FindsRefs who refs.now (P.view port.old) (P.view port.new)) }
    ensures err { OnErr result (FindStops who refs.now (P.view port.old) (P.view port.new)) }
    ensures lawful { IsLawfulOrSame (P.view port.old) (P.view port.new) }
    ensures asked { OnErr result (IsLawful (P.view port.old) (P.view port.new)) }
{
    let mut lacking = false;
    for (index, digest) in refs.iter().enumerate() {
        let note = Note {
            who,
            stage: Stage::Ref(index as u32),
        };
        if holds(port, note, digest)? {
            continue;
        }
        if !has_object(up, digest) {
            return Ok(FoundRefs::Absent {
                index: index as u32,
                digest: *digest,
            });
        }
        lacking = true;
    }
    if lacking {
        return Ok(FoundRefs::Lacking);
    }
    Ok(FoundRefs::All)
}

// Brings in each reference that the upstream alone has, in order, after one was missed.
fn bring_refs<P: CellPort>(
    alloc: Global,
    port: &mut P,
    who: Who,
    up: Option<&Frozen>,
    refs: &[Digest],
) -> Result<(), FaultInError>
    requires upstream { (P.view port.old).upstream ≡ upstream_state (option_copied up) }
    requires speaks { SpeaksFor (P.view port.old) who }
    requires missed { missed (P.view port.old).start who is_shallow (P.view port.old).seen ≡ true }
    requires visible { AreVisible (P.view port.old).upstream (seen_state (P.view port.old)) refs.now }
    ensures ok { OnOk result (BringsRefs who refs.now refs.now (P.view port.old) (P.view port.new)) }
    ensures err { IfErr result (RefsStop who refs.now (P.view port.old) (P.view port.new)) }
    ensures lawful { IsLawfulOrSame (P.view port.old) (P.view port.new) }
{
    for digest in refs {
        bring_tree(alloc, port, who, up, digest)?;
    }
    Ok(())
}
