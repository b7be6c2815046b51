// Stores and loads over a plain port: the answers of a first reference that is absent, of one object, of a node that
// names one object three times, and of a store that is made twice.
use crate::testing::store_in;
use cas_model::{Digest, Note, Stage};
use cas_port::CellPort;
use cell_port::PlainPort;
use graph_db::{StoreError, holds, load};
use std::test::Fail;
use test_fixtures::{ABSENT, call, hashed};

#[test]
fn an_absent_reference_is_dangling(rt: HostRuntime) -> Result<(), Fail> {
    let mut port = PlainPort::new(rt.alloc(), 4096)?;
    let answer = store_in(&mut port, call(0), &[ABSENT], b"");
    assert_eq!(rt;
        answer,
        Err(StoreError::Dangling {
            index: 0,
            digest: ABSENT
        })
    );
    // Nothing was claimed: the next block begins where the region does.
    let note = Note {
        who: call(0),
        stage: Stage::Own,
    };
    match port.claim(note, 1) {
        Ok(block) => assert_eq!(rt; block.place().at, 520),
        Err(_) => assert!(rt; false),
    }
    Ok(())
}

#[test]
fn a_stored_object_is_loaded(rt: HostRuntime) -> Result<(), Fail> {
    let mut port = PlainPort::new(rt.alloc(), 4096)?;
    let hello = hashed(&[], b"hello");
    let absent = load(rt.alloc(), &mut port, call(0), &hello)?;
    assert!(rt; absent.is_none());
    assert_eq!(rt; store_in(&mut port, call(1), &[], b"hello"), Ok(hello));
    // It is there, and stays.
    assert_eq!(rt; store_in(&mut port, call(2), &[], b"hello"), Ok(hello));
    match load(rt.alloc(), &mut port, call(3), &hello)? {
        Some(object) => {
            assert!(rt; object.refs.list().is_empty());
            assert_eq!(rt; object.data.list(), b"hello".as_slice());
        }
        None => assert!(rt; false),
    }
    let note = Note {
        who: call(4),
        stage: Stage::Ref(0),
    };
    assert!(rt; holds(&mut port, note, &hello)?);
    assert!(rt; !holds(&mut port, note, &ABSENT)?);
    Ok(())
}

#[test]
fn a_node_names_one_object_three_times(rt: HostRuntime) -> Result<(), Fail> {
    let mut port = PlainPort::new(rt.alloc(), 4096)?;
    let leaf = hashed(&[], b"leaf");
    let node = hashed(&[leaf, leaf, leaf], b"0123456789");
    assert_eq!(rt; store_in(&mut port, call(0), &[], b"leaf"), Ok(leaf));
    let answer = store_in(&mut port, call(1), &[leaf, leaf, leaf], b"0123456789");
    assert_eq!(rt; answer, Ok(node));
    match load(rt.alloc(), &mut port, call(2), &node)? {
        Some(object) => {
            assert_eq!(rt; object.refs.list(), [leaf, leaf, leaf].as_slice());
            assert_eq!(rt; object.data.list(), b"0123456789".as_slice());
        }
        None => assert!(rt; false),
    }
    let second = store_in(&mut port, call(3), &[leaf, ABSENT, leaf, ABSENT], b"");
    assert_eq!(rt;
        second,
        Err(StoreError::Dangling {
            index: 1,
            digest: ABSENT
        })
    );
    Ok(())
}
