// The calls of a plain port with what they saw: the events, the places and the words were worked out by hand from the
// rules, and the digests of the data `a` and of its words were computed by another implementation of SHA-256.
ghost use Rattle.std.specs.Prelude.{◌≡◌, ◌<◌, ℕ, true};
ghost use Rattle.cas_port.specs.Calls.{HasWord};

use crate::testing::{put_in, store_in};
use Move::{Bind, Claim, Fill, Look, Read, Room};
use Space::{Actions, Objects};
use action_cache::get;
use cas_history::Act;
use cas_model::{
    Contents, Data, Digest, Full, Id, NoUpstream, Note, Object, Pair, Place, Refs, Space, Stage,
    Who,
};
use cas_port::{CellPort, PortError, Steps, Written};
use cell_port::{Events, PlainPort};
use graph_db::load;
use std::alloc::{AllocError, Global};
use std::marker::Brand;
use std::sync::ledger::{Blank, Ledger};
use std::test::Fail;
use test_fixtures::{call, hashed, hashed_key};

const WHO: Who = Who {
    session: 0,
    index: 0,
};

const OWN: Note = Note {
    who: WHO,
    stage: Stage::Own,
};

/// The content of the data `a`.
const A: &[u64] = &[1, 0x61];

/// An act, as plain data. A bind names its own record, or none.
#[derive(Clone, Copy)]
enum Move<'w> {
    Look(Space, Digest),
    Bind(Space, Digest, Option<Place>),
    Read(u64),
    Claim(u64),
    Room(u64, bool),
    Fill(u64, u64, &'w [u64]),
}

fn at(at: u64) -> Place
    ensures { result.at ≡ at }
{
    Place { at }
}

fn is_move(act: &Act, want: Move) -> bool {
    match (act, want) {
        (Act::Look(space, digest), Look(s, d)) => *space == s && *digest == d,
        (Act::Bind(space, digest, own), Bind(s, d, o)) => {
            *space == s && *digest == d && *own == o
        }
        (Act::Read(cell), Read(c)) => cell.at == c,
        (Act::Claim(words), Claim(n)) => *words == n,
        (Act::Room(words, moved), Room(n, m)) => *words == n && *moved == m,
        (Act::Fill(cell, value, words), Fill(c, v, w)) => {
            cell.at == c && *value == v && words.list() == w
        }
        _ => false,
    }
}

/// Whether these are the acts that were seen, the oldest first.
fn acted(events: &Events, wants: &[Move]) -> bool {
    let events = events.list();
    events.len() == wants.len()
        && events
            .iter()
            .rev()
            .zip(wants)
            .all(|(event, want)| is_move(&event.act, *want))
}

/// Whether these are the acts that were seen, the oldest first, each of the own stage.
fn saw(events: &Events, wants: &[Move]) -> bool {
    acted(events, wants) && events.list().iter().all(|event| event.note == OWN)
}

#[test]
fn a_content_is_stored_in_five_events(rt: HostRuntime) -> Result<(), Fail> {
    let mut port = PlainPort::new(rt.alloc(), 4096)?;
    let a = hashed(&[], b"a");
    let id = b"llvmcas://2bef8482f27905da956c1dfd3ab90c0f04ff1b7ce73744b7534f59364535c9a7";
    assert_eq!(rt; Id::parse(id), Ok(a));
    assert_eq!(rt; store_in(&mut port, WHO, &[], b"a"), Ok(a));
    let wants = [
        Look(Objects, a),
        Claim(5),
        Bind(Objects, a, Some(at(520))),
        Claim(2),
        Fill(520, 525, A),
    ];
    assert!(rt; saw(&port.into_events(), &wants));
    Ok(())
}

#[test]
fn a_claim_past_the_end_moves_nothing(rt: HostRuntime) -> Result<(), Fail> {
    let mut port = PlainPort::new(rt.alloc(), 4096)?;
    let full = Full {
        at: 4090,
        asked: 7,
        size: 4096,
    };
    let cases = [
        (3570, Ok(520)),
        (7, Err(PortError::Full(full))),
        (6, Ok(4090)),
    ];
    for (words, want) in cases {
        let got = port.claim(OWN, words).map(|block| block.place().at);
        assert_eq!(rt; got, want);
    }
    assert!(rt;
        saw(
            &port.into_events(),
            &[Claim(3570), Room(7, false), Claim(6)]
        )
    );
    Ok(())
}

#[test]
fn words_are_written_in_any_order(rt: HostRuntime) -> Result<(), Fail> {
    let mut words = Written::none(rt.alloc(), 6)?;
    // In its turn, before its turn twice, again, in its turn but after a later one, and never for the last.
    for (index, word) in [
        (0, 10),
        (3, 13),
        (2, 12),
        (3, 33),
        (0, 30),
        (1, 11),
        (4, 14),
    ] {
        if index < 6 {
            words.set(index, word);
        }
    }
    let wants: &[u64] = &[30, 11, 12, 33, 14, 0];
    assert_eq!(rt; words.into_words().list(), wants);
    Ok(())
}

// So many of the words that the port shows at a place.
fn words_at<P: CellPort>(
    alloc: Global,
    port: &mut P,
    place: Place,
    count: u64,
) -> Result<Vec<u64>, AllocError>
    requires { (i : ℕ) → i < count → HasWord (P.view port.old) place i }
    ensures { P.view port.new ≡ P.view port.old }
{
    let mut words = Vec::new(alloc);
    for index in 0..count {
        words.push(port.word(place, index))?;
    }
    Ok(words)
}

// The words of the record to which a digest is bound.
fn record_words<L: Ledger, P: CellPort>(
    alloc: Global,
    port: &mut P,
    digest: &Digest,
    blank: Blank,
) -> Result<Option<Vec<u64>>, AllocError>
    requires name { blank.name ≡ L.name }
    requires parts { blank.parts ≡ L.parts }
    requires one { blank.parts ≡ 1 }
    requires speaks { (P.view port.old).speaks 0 ≡ true }
{
    let mut steps: Steps<L> = Steps::new(blank);
    match port.look(OWN, Objects, digest, &mut steps)? {
        Some(place) => Ok(Some(words_at(alloc, port, place, 4)?)),
        None => Ok(None),
    }
}

#[test]
fn words_are_read_back(rt: HostRuntime) -> Result<(), Fail> {
    let mut port = PlainPort::new(rt.alloc(), 4096)?;
    let a = hashed(&[], b"a");
    assert_eq!(rt; store_in(&mut port, WHO, &[], b"a"), Ok(a));
    let wants: &[u64] = &[
        0x2bef8482f27905da,
        0x956c1dfd3ab90c0f,
        0x04ff1b7ce73744b7,
        0x534f59364535c9a7,
    ];
    match record_words::<Brand, _>(rt.alloc(), &mut port, &a, Blank::new(1))? {
        Some(words) => assert_eq!(rt; words.as_slice(), wants),
        None => assert!(rt; false),
    }
    match load(rt.alloc(), &mut port, call(1), &a)? {
        Some(object) => assert_eq!(rt; object.data.list(), b"a".as_slice()),
        None => assert!(rt; false),
    }
    Ok(())
}

// Binds two digests.
fn bind_two<L: Ledger, P: CellPort>(
    port: &mut P,
    first: &Digest,
    second: &Digest,
    blank: Blank,
) -> Result<(Place, Place), PortError>
    requires name { blank.name ≡ L.name }
    requires parts { blank.parts ≡ L.parts }
    requires one { blank.parts ≡ 1 }
    requires speaks { (P.view port.old).speaks 0 ≡ true }
{
    let mut steps: Steps<L> = Steps::new(blank);
    let first = port.bind(OWN, Objects, first, &mut steps)?;
    let second = port.bind(OWN, Objects, second, &mut steps)?;
    Ok((first.place, second.place))
}

#[test]
fn digests_that_differ_in_their_last_nibble_need_62_subtries(rt: HostRuntime) -> Result<(), Fail> {
    let mut port = PlainPort::new(rt.alloc(), 4096)?;
    let zero = Digest { bytes: [0; 32] };
    let mut bytes = [0; 32];
    bytes[31] = 1;
    let one = Digest { bytes };
    let places = bind_two::<Brand, _>(&mut port, &zero, &one, Blank::new(1));
    assert_eq!(rt; places, Ok((at(520), at(525))));
    let block = port.claim(OWN, 1)?;
    assert_eq!(rt; block.place().at, 1522);
    let mut wants = Vec::new(rt.alloc());
    wants.extend_from_slice(&[Claim(5), Bind(Objects, zero, Some(at(520))), Claim(5)])?;
    for _ in 0..62 {
        wants.push(Claim(16))?;
    }
    wants.extend_from_slice(&[Bind(Objects, one, Some(at(525))), Claim(1)])?;
    assert!(rt; saw(&port.into_events(), &wants));
    Ok(())
}

#[test]
fn a_key_is_given_a_record(rt: HostRuntime) -> Result<(), Fail> {
    let mut port = PlainPort::new(rt.alloc(), 4096)?;
    let a = hashed(&[], b"a");
    let key = hashed_key(b"k");
    assert_eq!(rt; store_in(&mut port, call(0), &[], b"a"), Ok(a));
    assert_eq!(rt; put_in(&mut port, call(1), &key, &a), Ok(a));
    assert_eq!(rt; get(&mut port, call(2), &key)?, Some(a));
    let held = port.contents()?;
    assert!(rt; is_a_under_key(&held, a, key));
    // What a port holds is opened by another, which has seen nothing and holds the same.
    let twin = PlainPort::from_parts(rt.alloc(), &held, 4096)?.under(&NoUpstream);
    assert!(rt; is_a_under_key(&twin.contents()?, a, key));
    assert!(rt; saw(&twin.into_events(), &[]));
    let wants = [
        Look(Objects, a),
        Claim(5),
        Bind(Objects, a, Some(at(520))),
        Claim(2),
        Fill(520, 525, A),
        Look(Objects, a),
        Read(520),
        Look(Actions, key),
        Claim(5),
        Bind(Actions, key, Some(at(527))),
        Fill(527, 520, &[]),
        Look(Actions, key),
        Read(527),
    ];
    assert!(rt; acted(&port.into_events(), &wants));
    Ok(())
}

fn is_a_under_key(held: &Contents, a: Digest, key: Digest) -> bool {
    let pair = Pair { key, value: a };
    held.actions.as_slice() == [pair].as_slice()
        && match held.objects.as_slice() {
            [object] => object.refs.list().is_empty() && object.data.list() == b"a".as_slice(),
            _ => false,
        }
}

#[test]
fn contents_that_do_not_fit_are_refused(rt: HostRuntime) -> Result<(), Fail> {
    let mut objects = Vec::new(rt.alloc());
    objects.push(Object {
        refs: Refs::from_vec(Vec::new(rt.alloc())),
        data: Data::from_vec(vec![in rt.alloc(); 0; 28600]?),
    })?;
    let contents = Contents {
        objects,
        actions: Vec::new(rt.alloc()),
    };
    let refused = PlainPort::from_parts(rt.alloc(), &contents, 4096).map(|_| ());
    let full = Full {
        at: 525,
        asked: 3576,
        size: 4096,
    };
    assert_eq!(rt; refused, Err(PortError::Full(full)));
    Ok(())
}
