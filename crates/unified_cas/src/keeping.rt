// Keys and their values over an upstream.
ghost use Rattle.std.specs.Prelude.{◌≡◌, Some, None, IfOk, IfErr, OnErr, OnOk, option_copied};
ghost use Rattle.std.specs.FinMap as fin;
ghost use Rattle.cas_model.specs.declared.call.Call.TheVariants.{Put, Get};
ghost use Rattle.cas_port.specs.Calls.{IsLawful};
ghost use Rattle.graph_db.specs.Events.{SpeaksFor};
ghost use Rattle.unified_cas.specs.Answers.{Answers};
ghost use Rattle.unified_cas.specs.Over.{EndsEarly, FindsValue, HasTreeIn, TreeStops, ValueStops};
ghost use Rattle.unified_cas.specs.Reading.{ReadsAlone};
ghost use Rattle.unified_cas.specs.Upstream.{upstream_state};

use crate::replies::{kept, misses_known};
use crate::upstream::{action, bring_tree, closed, has_object};
use action_cache::{bring, find_key, get, put};
use cas_model::{Digest, Note, Reply, Stage, Who};
use cas_port::CellPort;
use fault_in::FaultInError;
use frozen_store::Frozen;
use graph_db::holds;
use std::alloc::{AllocError, Global};

// Gets the value of a key. Where the upstream alone has the key, it is brought in with its value's tree.
pub(crate) fn get_value<P: CellPort>(
    alloc: Global,
    port: &mut P,
    who: Who,
    up: Option<&Frozen>,
    key: &Digest,
) -> Result<Reply, FaultInError>
    requires upstream { (P.view port.old).upstream ≡ upstream_state (option_copied up) }
    requires speaks { SpeaksFor (P.view port.old) who }
    ensures ok { IfOk result (λ reply. Answers who (Get key.now) reply (P.view port.old) (P.view port.new)) }
    ensures err { IfErr result (EndsEarly who (Get key.now) (P.view port.old) (P.view port.new)) }
    ensures reads { IfOk result (λ reply. ReadsAlone who (Get key.now) reply (P.view port.old) (P.view port.new)) }
    ensures lawful { IsLawful (P.view port.old) (P.view port.new) }
{
    if let Some(value) = get(port, who, key)? {
        return Ok(Reply::Hit(value));
    }
    match action(up, key) {
        None => Ok(Reply::Miss),
        Some(given) => {
            bring_value(alloc, port, who, up, key, &given)?;
            Ok(Reply::Hit(bring(port, who, key, &given)?))
        }
    }
}

// Gives a key a value.
pub(crate) fn put_value<P: CellPort>(
    alloc: Global,
    port: &mut P,
    who: Who,
    up: Option<&Frozen>,
    key: &Digest,
    value: &Digest,
) -> Result<Reply, FaultInError>
    requires upstream { (P.view port.old).upstream ≡ upstream_state (option_copied up) }
    requires speaks { SpeaksFor (P.view port.old) who }
    ensures ok { IfOk result (λ reply. Answers who (Put key.now value.now) reply (P.view port.old) (P.view port.new)) }
    ensures err { IfErr result (EndsEarly who (Put key.now value.now) (P.view port.old) (P.view port.new)) }
    ensures reads { IfOk result (λ reply. ReadsAlone who (Put key.now value.now) reply (P.view port.old) (P.view port.new)) }
    ensures lawful { IsLawful (P.view port.old) (P.view port.new) }
{
    match action(up, key) {
        None => put_new(alloc, port, who, up, key, value),
        Some(given) => put_known(alloc, port, who, up, key, value, &given),
    }
}

// Gives a value to a key that the upstream lacks. The value is brought in only where the put misses it and the upstream
// has it.
fn put_new<P: CellPort>(
    alloc: Global,
    port: &mut P,
    who: Who,
    up: Option<&Frozen>,
    key: &Digest,
    value: &Digest,
) -> Result<Reply, FaultInError>
    requires upstream { (P.view port.old).upstream ≡ upstream_state (option_copied up) }
    requires speaks { SpeaksFor (P.view port.old) who }
    requires lacks { fin.get (upstream_state (option_copied up)).cache key.now ≡ None }
    ensures ok { IfOk result (λ reply. Answers who (Put key.now value.now) reply (P.view port.old) (P.view port.new)) }
    ensures err { IfErr result (EndsEarly who (Put key.now value.now) (P.view port.old) (P.view port.new)) }
    ensures reads { IfOk result (λ reply. ReadsAlone who (Put key.now value.now) reply (P.view port.old) (P.view port.new)) }
    ensures lawful { IsLawful (P.view port.old) (P.view port.new) }
{
    let first = put(port, who, key, value);
    if !misses_known(up, &first) {
        return kept(first);
    }
    if let Some(had) = find_key(port, who, key)? {
        return Ok(Reply::Kept(had));
    }
    bring_tree(alloc, port, who, up, value)?;
    kept(put(port, who, key, value))
}

// Gives a value to a key that the upstream has: the key gets the upstream's value, which is brought in with its tree.
fn put_known<P: CellPort>(
    alloc: Global,
    port: &mut P,
    who: Who,
    up: Option<&Frozen>,
    key: &Digest,
    value: &Digest,
    given: &Digest,
) -> Result<Reply, FaultInError>
    requires upstream { (P.view port.old).upstream ≡ upstream_state (option_copied up) }
    requires speaks { SpeaksFor (P.view port.old) who }
    requires given { fin.get (upstream_state (option_copied up)).cache key.now ≡ Some given.now }
    ensures ok { IfOk result (λ reply. Answers who (Put key.now value.now) reply (P.view port.old) (P.view port.new)) }
    ensures err { IfErr result (EndsEarly who (Put key.now value.now) (P.view port.old) (P.view port.new)) }
    ensures reads { IfOk result (λ reply. ReadsAlone who (Put key.now value.now) reply (P.view port.old) (P.view port.new)) }
    ensures lawful { IsLawful (P.view port.old) (P.view port.new) }
{
    if !finds_value(port, who, up, value)? {
        return Ok(Reply::Dangling {
            index: 0,
            digest: *value,
        });
    }
    if let Some(had) = find_key(port, who, key)? {
        return Ok(Reply::Kept(had));
    }
    bring_value(alloc, port, who, up, key, given)?;
    Ok(Reply::Kept(bring(port, who, key, given)?))
}

// Whether the primary or the upstream has a put's value.
fn finds_value<P: CellPort>(
    port: &mut P,
    who: Who,
    up: Option<&Frozen>,
    value: &Digest,
) -> Result<bool, AllocError>
    requires upstream { (P.view port.old).upstream ≡ upstream_state (option_copied up) }
    requires speaks { SpeaksFor (P.view port.old) who }
    ensures ok { IfOk result (FindsValue who value.now (P.view port.old) (P.view port.new)) }
    ensures err { OnErr result (ValueStops who value.now (P.view port.old) (P.view port.new)) }
    ensures lawful { IsLawful (P.view port.old) (P.view port.new) }
{
    let note = Note {
        who,
        stage: Stage::Ref(0),
    };
    if holds(port, note, value)? {
        return Ok(true);
    }
    Ok(has_object(up, value))
}

// Brings in the tree of the upstream's value of a key, where the primary lacks the value.
fn bring_value<P: CellPort>(
    alloc: Global,
    port: &mut P,
    who: Who,
    up: Option<&Frozen>,
    key: &Digest,
    given: &Digest,
) -> Result<(), FaultInError>
    requires upstream { (P.view port.old).upstream ≡ upstream_state (option_copied up) }
    requires speaks { SpeaksFor (P.view port.old) who }
    requires given { fin.get (upstream_state (option_copied up)).cache key.now ≡ Some given.now }
    ensures ok { OnOk result (HasTreeIn who given.now (P.view port.old) (P.view port.new)) }
    ensures err { IfErr result (TreeStops who given.now (P.view port.old) (P.view port.new)) }
    ensures lawful { IsLawful (P.view port.old) (P.view port.new) }
{
    closed(up);
    let note = Note {
        who,
        stage: Stage::Deep,
    };
    if !holds(port, note, given)? {
        bring_tree(alloc, port, who, up, given)?;
    }
    Ok(())
}
