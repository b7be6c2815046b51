// The four calls over a plain port: of an empty region alone, and over an upstream.
ghost use Rattle.std.specs.Prelude.{◌≡◌, ◌≤◌, length};

use cas_model::{Digest, NoUpstream, Note, Reply, Stage, Who};
use cell_port::PlainPort;
use frozen_store::Frozen;
use graph_db::holds;
use std::alloc::{AllocError, Global};
use std::test::Fail;
use test_fixtures::{ABSENT, call, hashed, hashed_key};
use unified_cas::Unified;

// A store where there is no upstream.
fn store_in<'u>(
    alloc: Global,
    port: &mut PlainPort<'u, NoUpstream>,
    who: Who,
    refs: &[Digest],
    data: &[u8],
) -> Result<Reply, AllocError>
    requires few_refs { length refs.now ≤ 65535 }
    requires short { length «data».now ≤ 16777215 }
{
    Unified { up: None }.store(alloc, port, who, refs, data)
}

// The digest of a reply that has one.
fn digest_in(reply: Reply) -> Option<Digest> {
    match reply {
        Reply::Stored(digest) | Reply::Kept(digest) | Reply::Hit(digest) => Some(digest),
        _ => None,
    }
}

#[test]
fn the_four_calls_answer(rt: HostRuntime) -> Result<(), Fail> {
    let mut port = PlainPort::new(rt.alloc(), 4096)?;
    let unified = Unified { up: None };
    let a = hashed(&[], b"a");
    let key = hashed_key(b"k");
    let stored = store_in(rt.alloc(), &mut port, call(0), &[], b"a")?;
    assert_eq!(rt; digest_in(stored), Some(a));
    match unified.load(rt.alloc(), &mut port, call(1), &a)? {
        Reply::Found(object) => assert_eq!(rt; object.data.list(), b"a".as_slice()),
        _ => assert!(rt; false),
    }
    let kept = unified.put(rt.alloc(), &mut port, call(2), &key, &a)?;
    assert_eq!(rt; digest_in(kept), Some(a));
    let hit = unified.get(rt.alloc(), &mut port, call(3), &key)?;
    assert_eq!(rt; digest_in(hit), Some(a));
    Ok(())
}

#[test]
fn what_is_absent_is_said_so(rt: HostRuntime) -> Result<(), Fail> {
    let mut port = PlainPort::new(rt.alloc(), 4096)?;
    let unified = Unified { up: None };
    let key = hashed_key(b"k");
    let missing = unified.load(rt.alloc(), &mut port, call(0), &ABSENT)?;
    assert!(rt; matches!(missing, Reply::Missing));
    let miss = unified.get(rt.alloc(), &mut port, call(1), &key)?;
    assert!(rt; matches!(miss, Reply::Miss));
    match store_in(rt.alloc(), &mut port, call(2), &[ABSENT], &[])? {
        Reply::Dangling { index, digest } => assert_eq!(rt; (index, digest), (0, ABSENT)),
        _ => assert!(rt; false),
    }
    match unified.put(rt.alloc(), &mut port, call(3), &key, &ABSENT)? {
        Reply::Dangling { index, digest } => assert_eq!(rt; (index, digest), (0, ABSENT)),
        _ => assert!(rt; false),
    }
    Ok(())
}

// ---- over an upstream

// A leaf, a node that names it, a top that names the node and the leaf, and an object beside them.
#[derive(Clone, Copy)]
struct Tree {
    leaf: Digest,
    node: Digest,
    top: Digest,
    beside: Digest,
}

fn its_digests() -> Tree {
    let leaf = hashed(&[], b"leaf");
    let node = hashed(&[leaf], b"node");
    Tree {
        leaf,
        node,
        top: hashed(&[node, leaf], b"top"),
        beside: hashed(&[], b"beside"),
    }
}

// The closed region with the tree, and with its node as the value of a key; where it fits and memory is found.
fn upstream(alloc: Global, key: &Digest) -> Result<Option<Frozen>, AllocError> {
    let mut port = PlainPort::new(alloc, 4096)?;
    let tree = its_digests();
    store_in(alloc, &mut port, call(0), &[], b"leaf")?;
    store_in(alloc, &mut port, call(1), &[tree.leaf], b"node")?;
    store_in(alloc, &mut port, call(2), &[tree.node, tree.leaf], b"top")?;
    store_in(alloc, &mut port, call(3), &[], b"beside")?;
    Unified { up: None }.put(alloc, &mut port, call(4), key, &tree.node)?;
    let contents = port.contents()?;
    Ok(Frozen::of_contents(alloc, &contents, 4096).ok())
}

// Which objects of the tree, and which beside it, the primary has: leaf, node, top, beside.
fn in_primary<'u>(
    port: &mut PlainPort<'u, Frozen>,
    tree: &Tree,
) -> Result<(bool, bool, bool, bool), AllocError> {
    let note = Note {
        who: call(9),
        stage: Stage::Own,
    };
    Ok((
        holds(port, note, &tree.leaf)?,
        holds(port, note, &tree.node)?,
        holds(port, note, &tree.top)?,
        holds(port, note, &tree.beside)?,
    ))
}

#[test]
fn a_load_brings_its_tree_in(rt: HostRuntime) -> Result<(), Fail> {
    let up = upstream(rt.alloc(), &ABSENT)?.expect(&rt, "it fits");
    let mut port = PlainPort::new(rt.alloc(), 4096)?.under(&up);
    let tree = its_digests();
    let unified = Unified { up: Some(&up) };
    match unified.load(rt.alloc(), &mut port, call(0), &tree.top)? {
        Reply::Found(object) => assert_eq!(rt; object.data.list(), b"top".as_slice()),
        _ => assert!(rt; false),
    }
    assert_eq!(rt; in_primary(&mut port, &tree)?, (true, true, true, false));
    Ok(())
}

#[test]
fn a_get_brings_its_key_and_the_tree_in(rt: HostRuntime) -> Result<(), Fail> {
    let key = hashed_key(b"k");
    let up = upstream(rt.alloc(), &key)?.expect(&rt, "it fits");
    let mut port = PlainPort::new(rt.alloc(), 4096)?.under(&up);
    let tree = its_digests();
    let hit = Unified { up: Some(&up) }.get(rt.alloc(), &mut port, call(0), &key)?;
    assert_eq!(rt; digest_in(hit), Some(tree.node));
    assert_eq!(rt; in_primary(&mut port, &tree)?, (true, true, false, false));
    assert_eq!(rt;
        action_cache::get(&mut port, call(1), &key)?,
        Some(tree.node)
    );
    Ok(())
}

#[test]
fn the_upstream_value_wins(rt: HostRuntime) -> Result<(), Fail> {
    let key = hashed_key(b"k");
    let up = upstream(rt.alloc(), &key)?.expect(&rt, "it fits");
    let mut port = PlainPort::new(rt.alloc(), 4096)?.under(&up);
    let tree = its_digests();
    let unified = Unified { up: Some(&up) };
    let kept = unified.put(rt.alloc(), &mut port, call(0), &key, &tree.beside)?;
    assert_eq!(rt; digest_in(kept), Some(tree.node));
    assert_eq!(rt; in_primary(&mut port, &tree)?, (true, true, false, false));
    Ok(())
}

#[test]
fn a_put_brings_its_value_in(rt: HostRuntime) -> Result<(), Fail> {
    let up = upstream(rt.alloc(), &ABSENT)?.expect(&rt, "it fits");
    let mut port = PlainPort::new(rt.alloc(), 4096)?.under(&up);
    let tree = its_digests();
    let key = hashed_key(b"k");
    let unified = Unified { up: Some(&up) };
    let kept = unified.put(rt.alloc(), &mut port, call(0), &key, &tree.top)?;
    assert_eq!(rt; digest_in(kept), Some(tree.top));
    assert_eq!(rt; in_primary(&mut port, &tree)?, (true, true, true, false));
    Ok(())
}

#[test]
fn a_store_brings_its_references_in(rt: HostRuntime) -> Result<(), Fail> {
    let up = upstream(rt.alloc(), &ABSENT)?.expect(&rt, "it fits");
    let mut port = PlainPort::new(rt.alloc(), 4096)?.under(&up);
    let tree = its_digests();
    let unified = Unified { up: Some(&up) };
    let stored = unified.store(rt.alloc(), &mut port, call(0), &[tree.node], b"new")?;
    assert_eq!(rt; digest_in(stored), Some(hashed(&[tree.node], b"new")));
    assert_eq!(rt; in_primary(&mut port, &tree)?, (true, true, false, false));
    Ok(())
}

#[test]
fn a_store_brings_what_the_upstream_has(rt: HostRuntime) -> Result<(), Fail> {
    let up = upstream(rt.alloc(), &ABSENT)?.expect(&rt, "it fits");
    let mut port = PlainPort::new(rt.alloc(), 4096)?.under(&up);
    let tree = its_digests();
    let refs = [tree.node, tree.leaf];
    let stored = Unified { up: Some(&up) }.store(rt.alloc(), &mut port, call(0), &refs, b"top")?;
    assert_eq!(rt; digest_in(stored), Some(tree.top));
    assert_eq!(rt; in_primary(&mut port, &tree)?, (true, true, true, false));
    Ok(())
}

#[test]
fn what_the_upstream_lacks_too_is_dangling(rt: HostRuntime) -> Result<(), Fail> {
    let up = upstream(rt.alloc(), &ABSENT)?.expect(&rt, "it fits");
    let mut port = PlainPort::new(rt.alloc(), 4096)?.under(&up);
    let tree = its_digests();
    let refs = [tree.leaf, ABSENT];
    match (Unified { up: Some(&up) }).store(rt.alloc(), &mut port, call(0), &refs, &[])? {
        Reply::Dangling { index, digest } => assert_eq!(rt; (index, digest), (1, ABSENT)),
        _ => assert!(rt; false),
    }
    assert_eq!(rt; in_primary(&mut port, &tree)?, (false, false, false, false));
    Ok(())
}

#[test]
fn a_put_of_a_filled_key_brings_nothing_in(rt: HostRuntime) -> Result<(), Fail> {
    let up = upstream(rt.alloc(), &ABSENT)?.expect(&rt, "it fits");
    let mut port = PlainPort::new(rt.alloc(), 4096)?.under(&up);
    let tree = its_digests();
    let key = hashed_key(b"k");
    let own = hashed(&[], b"own");
    let unified = Unified { up: Some(&up) };
    unified.store(rt.alloc(), &mut port, call(0), &[], b"own")?;
    unified.put(rt.alloc(), &mut port, call(1), &key, &own)?;
    let before = port.contents()?;
    let kept = unified.put(rt.alloc(), &mut port, call(2), &key, &tree.top)?;
    assert_eq!(rt; digest_in(kept), Some(own));
    assert_eq!(rt; in_primary(&mut port, &tree)?, (false, false, false, false));
    let after = port.contents()?;
    assert_eq!(rt; (before.objects.len(), before.actions.len()), (1, 1));
    assert_eq!(rt; (after.objects.len(), after.actions.len()), (1, 1));
    Ok(())
}
