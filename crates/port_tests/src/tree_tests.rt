// Trees brought in over a plain port: an absent digest, and trees of several shapes.
use crate::testing::store_in;
use cas_model::{Digest, NoUpstream, Note, Stage};
use cas_port::CellPort;
use cell_port::PlainPort;
use fault_in::fault_in;
use frozen_store::Frozen;
use graph_db::{StoreError, holds};
use std::alloc::{AllocError, Global};
use std::test::Fail;
use test_fixtures::{ABSENT, call};

/// The size of a region with room for a thousand objects, in words.
const LARGE: u64 = 65_536;

// A leaf, a node that names it, a top that names the node and the leaf, and an object beside them.
#[derive(Clone, Copy)]
struct Tree {
    leaf: Digest,
    node: Digest,
    top: Digest,
    beside: Digest,
}

fn store_tree<'u>(port: &mut PlainPort<'u, NoUpstream>) -> Result<Tree, StoreError> {
    let leaf = store_in(port, call(0), &[], b"leaf")?;
    let node = store_in(port, call(1), &[leaf], b"node")?;
    let top = store_in(port, call(2), &[node, leaf], b"top")?;
    let beside = store_in(port, call(3), &[], b"beside")?;
    Ok(Tree {
        leaf,
        node,
        top,
        beside,
    })
}

// The closed region of what a port holds, where it fits and memory is found.
fn closed<'u>(
    alloc: Global,
    port: &PlainPort<'u, NoUpstream>,
) -> Result<Option<Frozen>, AllocError> {
    let contents = port.contents()?;
    Ok(Frozen::of_contents(alloc, &contents, 4_096).ok())
}

// Whether the port has the whole tree, and not the object beside it.
fn has_tree<'u>(port: &mut PlainPort<'u, Frozen>, tree: &Tree) -> Result<bool, AllocError> {
    let note = Note {
        who: call(9),
        stage: Stage::Own,
    };
    Ok(
        holds(port, note, &tree.leaf)?
            && holds(port, note, &tree.node)?
            && holds(port, note, &tree.top)?
            && !holds(port, note, &tree.beside)?,
    )
}

#[test]
fn an_absent_digest_is_not_brought_in(rt: HostRuntime) -> Result<(), Fail> {
    let up = Frozen::empty(rt.alloc(), 4_096)?;
    let mut port = PlainPort::new(rt.alloc(), 4_096)?.under(&up);
    assert_eq!(rt;
        fault_in(rt.alloc(), &mut port, call(0), &up, &ABSENT),
        Ok(false)
    );
    assert!(rt; port.into_events().list().is_empty());
    Ok(())
}

#[test]
fn a_tree_is_brought_in(rt: HostRuntime) -> Result<(), Fail> {
    let mut origin = PlainPort::new(rt.alloc(), 4_096)?;
    let tree = store_tree(&mut origin).expect(&rt, "it fits");
    let up = closed(rt.alloc(), &origin)?.expect(&rt, "it fits");
    let mut port = PlainPort::new(rt.alloc(), 4_096)?.under(&up);
    assert_eq!(rt;
        fault_in(rt.alloc(), &mut port, call(0), &up, &tree.top),
        Ok(true)
    );
    assert!(rt; has_tree(&mut port, &tree)?);
    Ok(())
}

// What is left in a port after a tree was brought into it from the closed region of another one: how many objects.
fn brought(
    alloc: Global,
    origin: &PlainPort<'_, NoUpstream>,
    root: &Digest,
) -> Result<Option<usize>, AllocError> {
    let contents = origin.contents()?;
    let Ok(up) = Frozen::of_contents(alloc, &contents, LARGE) else {
        return Ok(None);
    };
    let mut port = PlainPort::new(alloc, LARGE)?.under(&up);
    match fault_in(alloc, &mut port, call(0), &up, root) {
        Ok(true) => Ok(Some(port.contents()?.objects.len())),
        _ => Ok(None),
    }
}

// A leaf, two nodes that name it, and a top that names both.
fn store_diamond<'u>(port: &mut PlainPort<'u, NoUpstream>) -> Result<Digest, StoreError> {
    let leaf = store_in(port, call(0), &[], b"leaf")?;
    let left = store_in(port, call(1), &[leaf], b"left")?;
    let right = store_in(port, call(2), &[leaf], b"right")?;
    store_in(port, call(3), &[left, right], b"top")
}

// A chain of so many objects, each of which names the one before it.
fn store_chain<'u>(port: &mut PlainPort<'u, NoUpstream>, count: u32) -> Result<Digest, StoreError> {
    let mut last = store_in(port, call(0), &[], b"end")?;
    for index in 1..count {
        last = store_in(port, call(index), &[last], b"link")?;
    }
    Ok(last)
}

#[test]
fn a_diamond_is_brought_in(rt: HostRuntime) -> Result<(), Fail> {
    let mut origin = PlainPort::new(rt.alloc(), LARGE)?;
    let top = store_diamond(&mut origin).expect(&rt, "it fits");
    store_in(&mut origin, call(4), &[top], b"above").expect(&rt, "it fits");
    assert_eq!(rt; brought(rt.alloc(), &origin, &top)?, Some(4));
    Ok(())
}

#[test]
fn a_chain_of_1000_objects_is_brought_in(rt: HostRuntime) -> Result<(), Fail> {
    let mut origin = PlainPort::new(rt.alloc(), LARGE)?;
    let last = store_chain(&mut origin, 1_000).expect(&rt, "it fits");
    assert_eq!(rt; brought(rt.alloc(), &origin, &last)?, Some(1_000));
    Ok(())
}

// A node that names 300 leaves, each of other data.
fn store_wide<'u>(port: &mut PlainPort<'u, NoUpstream>) -> Result<Digest, StoreError> {
    let mut leaves = [ABSENT; 300];
    for leaf in 0..300_u16 {
        let bytes = leaf.to_le_bytes();
        leaves[usize::from(leaf)] = store_in(port, call(u32::from(leaf)), &[], bytes.as_slice())?;
    }
    store_in(port, call(300), &leaves, b"wide")
}

#[test]
fn a_node_with_300_references_is_brought_in(rt: HostRuntime) -> Result<(), Fail> {
    let mut origin = PlainPort::new(rt.alloc(), LARGE)?;
    let wide = store_wide(&mut origin).expect(&rt, "it fits");
    assert_eq!(rt; brought(rt.alloc(), &origin, &wide)?, Some(301));
    Ok(())
}
