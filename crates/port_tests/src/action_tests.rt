// Keys over a plain port: the first value of a key stays, and a value that is absent is dangling.
ghost use Rattle.std.specs.Prelude.{◌≡◌, true};

use crate::testing::{put_in, store_in};
use action_cache::get;
use cas_model::{Digest, Note, Space, Stage};
use cas_port::{CellPort, Steps};
use cell_port::PlainPort;
use graph_db::{StoreError, load};
use std::marker::Brand;
use std::sync::ledger::{Blank, Ledger};
use std::test::Fail;
use test_fixtures::{ABSENT, call, hashed, hashed_key};

// Binds a key, and does not fill its cell.
fn bind<L: Ledger, P: CellPort>(port: &mut P, key: &Digest, blank: Blank)
    requires name { blank.name ≡ L.name }
    requires parts { blank.parts ≡ L.parts }
    requires one { blank.parts ≡ 1 }
    requires speaks { (P.view port.old).speaks 0 ≡ true }
{
    let mut steps: Steps<L> = Steps::new(blank);
    let note = Note {
        who: call(0),
        stage: Stage::Key,
    };
    let _ = port.bind(note, Space::Actions, key, &mut steps);
}

#[test]
fn the_first_value_of_a_key_stays(rt: HostRuntime) -> Result<(), Fail> {
    let mut port = PlainPort::new(rt.alloc(), 4096)?;
    let key = hashed_key(b"k");
    let a = hashed(&[], b"a");
    let b = hashed(&[], b"b");
    assert_eq!(rt; get(&mut port, call(0), &key)?, None);
    assert_eq!(rt; store_in(&mut port, call(1), &[], b"a"), Ok(a));
    assert_eq!(rt; store_in(&mut port, call(2), &[], b"b"), Ok(b));
    assert_eq!(rt; put_in(&mut port, call(3), &key, &a), Ok(a));
    assert_eq!(rt; put_in(&mut port, call(4), &key, &b), Ok(a));
    assert_eq!(rt; get(&mut port, call(5), &key)?, Some(a));
    match load(rt.alloc(), &mut port, call(6), &a)? {
        Some(object) => assert_eq!(rt; object.data.list(), b"a".as_slice()),
        None => assert!(rt; false),
    }
    Ok(())
}

#[test]
fn an_absent_value_is_dangling(rt: HostRuntime) -> Result<(), Fail> {
    let mut port = PlainPort::new(rt.alloc(), 4096)?;
    let key = hashed_key(b"k");
    let answer = put_in(&mut port, call(0), &key, &ABSENT);
    let wanted = StoreError::Dangling {
        index: 0,
        digest: ABSENT,
    };
    assert_eq!(rt; answer, Err(wanted));
    assert_eq!(rt; get(&mut port, call(1), &key)?, None);
    Ok(())
}

#[test]
fn a_key_that_is_bound_and_not_filled_is_missed(rt: HostRuntime) -> Result<(), Fail> {
    let mut port = PlainPort::new(rt.alloc(), 4096)?;
    let key = hashed_key(b"k");
    bind::<Brand, _>(&mut port, &key, Blank::new(1));
    assert_eq!(rt; get(&mut port, call(1), &key)?, None);
    Ok(())
}
