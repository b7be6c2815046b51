// Runs that were worked out by hand from the rules: each event with its answer, the tables at the end, and the calls
// that were decided, the newest first. The digests were computed by another implementation of SHA-256.
use Answer::{Bound, Given, Looked, Lost, Refused, Value, Won};
use Space::{Actions, Objects};
use Stage::{Deep, Key, Own, Ref};
use cas_history::{Act, Answer, Asked, ClaimedBlock, Event, ReplayError, Rows};
use cas_model::{
    Call, Cell, Contents, Data, Digest, Id, Note, Object, Pair, Place, Record, Refs, Reply, Space,
    Stage, Who, Words,
};
use history_replay::Replay;
use std::alloc::{AllocError, Global};
use std::test::Fail;

/// A digest that the runs name.
#[derive(Clone, Copy)]
enum Name {
    /// The object of the data `a`.
    A,
    /// The object of the data `b`.
    B,
    /// The object of the data `b` with a reference to `A`.
    Node,
    /// An object that is nowhere.
    Nowhere,
    /// The digest of the text `key`.
    Word,
}

use Name::{A, B, Node, Nowhere, Word};

impl Name {
    fn digest(self) -> Result<Digest, Fail> {
        let id = match self {
            A => "llvmcas://2bef8482f27905da956c1dfd3ab90c0f04ff1b7ce73744b7534f59364535c9a7",
            B => "llvmcas://0c601110aa235947d84654698c4c5b827654e0ed58e04abc808b6a29e3537eb9",
            Node => "llvmcas://00cdf28e2ec3156c269e3f9984b3197f341d4f3ff6b83d6f7117c4b7f1e0edaf",
            Nowhere => "llvmcas://65094dcac6e080cfc5b7f72bbd21c7686cdba23256df27bc2fddd615d3f87aaa",
            Word => "llvmcas://2c70e12b7a0646f92279f427c7b38e7334d8e5389cff167a1dc30e73f826b683",
        };
        Ok(Id::parse(id.as_bytes())?)
    }
}

/// The content that a fill publishes: none, that of `a`, that of `b`, or that of the node where the record of `a` is
/// at 520.
#[derive(Clone, Copy)]
enum Block {
    Nothing,
    OfA,
    OfB,
    OfNode,
}

use Block::{Nothing, OfA, OfB, OfNode};

impl Block {
    fn words(self, alloc: Global) -> Result<Vec<u64>, AllocError> {
        match self {
            Nothing => Ok(Vec::new(alloc)),
            OfA => [1, 0x61].to_vec(alloc),
            OfB => [1, 0x62].to_vec(alloc),
            OfNode => [0x1_0000_0001, 520, 0x62].to_vec(alloc),
        }
    }
}

/// An act, as plain data. `Met` is a bind without a record of its own.
#[derive(Clone, Copy)]
enum Move {
    Look(Space, Name),
    Bind(Space, Name, u64),
    Met(Space, Name),
    Read(u64),
    Claim(u64),
    Room(u64, bool),
    Fill(u64, u64, Block),
}

use Move::{Bind, Claim, Fill, Look, Met, Read, Room};

/// A call, as plain data.
#[derive(Clone, Copy)]
enum Ask {
    StoreA,
    StoreB,
    StoreNode,
    /// An object with references to `A` and to what is nowhere.
    StoreDangling,
    Load(Name),
    Put(Name, Name),
    Get(Name),
}

use Ask::{Get, Load, Put, StoreA, StoreB, StoreDangling, StoreNode};

/// A reply, as plain data.
#[derive(Clone, Copy)]
enum Said {
    Stored(Name),
    FoundA,
    FoundNode,
    Missing,
    Kept(Name),
    Hit(Name),
    Miss,
    Dangling(u32, Name),
    Full(u64, u64),
}

use Said::{Dangling, FoundA, FoundNode, Full, Hit, Kept, Miss, Missing, Stored};

/// An event with its answer: the session, the call's number, the stage, the act, and what it must answer.
type Row = (u32, u32, Stage, Move, Answer);

/// The places of records.
const AT_520: Option<Place> = Some(Place { at: 520 });

const AT_525: Option<Place> = Some(Place { at: 525 });

const AT_527: Option<Place> = Some(Place { at: 527 });

const AT_534: Option<Place> = Some(Place { at: 534 });

const AT_535: Option<Place> = Some(Place { at: 535 });

const AT_541: Option<Place> = Some(Place { at: 541 });

/// The first session stores `a`: it misses the digest, claims and binds a record, and claims and fills a content.
const STORE_OF_A: &[Row] = &[
    (0, 0, Own, Look(Objects, A), Looked(None)),
    (0, 0, Own, Claim(5), Given(520)),
    (0, 0, Own, Bind(Objects, A, 520), Bound(AT_520)),
    (0, 0, Own, Claim(2), Given(525)),
    (0, 0, Own, Fill(520, 525, OfA), Won(525)),
];

/// It stores `a` again, and then a node over it.
const STORE_OF_NODE: &[Row] = &[
    (0, 1, Own, Look(Objects, A), Looked(AT_520)),
    (0, 1, Own, Read(520), Value(525)),
    (0, 2, Ref(0), Look(Objects, A), Looked(AT_520)),
    (0, 2, Ref(0), Read(520), Value(525)),
    (0, 2, Own, Look(Objects, Node), Looked(None)),
    (0, 2, Own, Claim(5), Given(527)),
    (0, 2, Own, Bind(Objects, Node, 527), Bound(AT_527)),
    (0, 2, Own, Claim(3), Given(532)),
    (0, 2, Own, Fill(527, 532, OfNode), Won(532)),
];

/// Two sessions store `a`: the first one's record is bound, and the second one's fill wins.
const RACE: &[Row] = &[
    (0, 0, Own, Look(Objects, A), Looked(None)),
    (1, 0, Own, Look(Objects, A), Looked(None)),
    (0, 0, Own, Claim(5), Given(520)),
    (1, 0, Own, Claim(5), Given(525)),
    (0, 0, Own, Bind(Objects, A, 520), Bound(AT_520)),
    (1, 0, Own, Bind(Objects, A, 525), Bound(AT_520)),
    (0, 0, Own, Claim(2), Given(530)),
    (1, 0, Own, Claim(2), Given(532)),
    (1, 0, Own, Fill(520, 532, OfA), Won(532)),
    (0, 0, Own, Fill(520, 530, OfA), Lost(532)),
];

/// The second session stores `b`. Then both put the key, the first one with `a` and the second one with `b`.
const PUTS: &[Row] = &[
    (1, 1, Own, Look(Objects, B), Looked(None)),
    (1, 1, Own, Claim(5), Given(534)),
    (1, 1, Own, Bind(Objects, B, 534), Bound(AT_534)),
    (1, 1, Own, Claim(2), Given(539)),
    (1, 1, Own, Fill(534, 539, OfB), Won(539)),
    (0, 1, Ref(0), Look(Objects, A), Looked(AT_520)),
    (0, 1, Ref(0), Read(520), Value(532)),
    (1, 2, Ref(0), Look(Objects, B), Looked(AT_534)),
    (1, 2, Ref(0), Read(534), Value(539)),
    (0, 1, Key, Look(Actions, Word), Looked(None)),
    (1, 2, Key, Look(Actions, Word), Looked(None)),
    (0, 1, Key, Claim(5), Given(541)),
    (0, 1, Key, Bind(Actions, Word, 541), Bound(AT_541)),
    (1, 2, Key, Met(Actions, Word), Bound(AT_541)),
    (0, 1, Key, Fill(541, 520, Nothing), Won(520)),
    (1, 2, Key, Fill(541, 534, Nothing), Lost(520)),
];

/// A reference is absent, and then another session binds its digest, but fills nothing. Then `a` is loaded.
const ABSENT: &[Row] = &[
    (0, 1, Ref(0), Look(Objects, A), Looked(AT_520)),
    (0, 1, Ref(0), Read(520), Value(525)),
    (0, 1, Ref(1), Look(Objects, Nowhere), Looked(None)),
    (1, 0, Own, Claim(5), Given(527)),
    (1, 0, Own, Bind(Objects, Nowhere, 527), Bound(AT_527)),
    (0, 2, Ref(0), Look(Objects, Nowhere), Looked(AT_527)),
    (0, 2, Ref(0), Read(527), Value(0)),
    (0, 3, Own, Look(Objects, Nowhere), Looked(AT_527)),
    (0, 3, Own, Read(527), Value(0)),
    (0, 4, Key, Look(Actions, Word), Looked(None)),
    (0, 5, Own, Look(Objects, A), Looked(AT_520)),
    (0, 5, Own, Read(520), Value(525)),
];

/// Claims until one is refused: it stays, one moves the counter, and one comes after it.
const REFUSED: &[Row] = &[
    (0, 0, Own, Claim(3570), Given(520)),
    (0, 0, Own, Claim(5), Given(4090)),
    (0, 0, Own, Room(2, false), Refused(4095)),
    (1, 0, Own, Room(5, true), Refused(4095)),
    (2, 0, Own, Room(1, false), Refused(4100)),
];

/// A get misses its key, brings in the value that the upstream has, and fills the key. Then the value is loaded.
const FAULT_IN: &[Row] = &[
    (0, 0, Key, Look(Actions, Word), Looked(None)),
    (0, 0, Deep, Look(Objects, Node), Looked(None)),
    (0, 0, Deep, Look(Objects, A), Looked(None)),
    (0, 0, Deep, Claim(5), Given(520)),
    (0, 0, Deep, Bind(Objects, A, 520), Bound(AT_520)),
    (0, 0, Deep, Claim(2), Given(525)),
    (0, 0, Deep, Fill(520, 525, OfA), Won(525)),
    (0, 0, Deep, Claim(5), Given(527)),
    (0, 0, Deep, Bind(Objects, Node, 527), Bound(AT_527)),
    (0, 0, Deep, Claim(3), Given(532)),
    (0, 0, Deep, Fill(527, 532, OfNode), Won(532)),
    (0, 0, Key, Claim(5), Given(535)),
    (0, 0, Key, Bind(Actions, Word, 535), Bound(AT_535)),
    (0, 0, Key, Fill(535, 527, Nothing), Won(527)),
    (0, 1, Own, Look(Objects, Node), Looked(AT_527)),
    (0, 1, Own, Read(527), Value(532)),
];

/// The key is bound after `a` was stored.
const BOUND_KEY: &[Row] = &[
    (0, 0, Key, Claim(5), Given(527)),
    (0, 0, Key, Bind(Actions, Word, 527), Bound(AT_527)),
];

/// A node and its reference are bound, and nothing is filled.
const BOUND_NODE: &[Row] = &[
    (0, 0, Deep, Claim(5), Given(520)),
    (0, 0, Deep, Bind(Objects, A, 520), Bound(AT_520)),
    (0, 0, Deep, Claim(5), Given(525)),
    (0, 0, Deep, Bind(Objects, Node, 525), Bound(AT_525)),
    (0, 0, Deep, Claim(3), Given(530)),
];

/// `a` is loaded by a run that starts where another ended.
const LOAD_OF_A: &[Row] = &[
    (0, 0, Own, Look(Objects, A), Looked(AT_520)),
    (0, 0, Own, Read(520), Value(525)),
];

/// What a second session may do after `a` was stored, at the stage of the key, and why not.
const NEXT: &[(Move, Option<ReplayError>)] = &[
    (Look(Objects, Node), None),
    // the own record was not claimed, and there is none
    (Bind(Objects, Node, 520), Some(ReplayError::Unlawful)),
    (Met(Objects, Node), Some(ReplayError::Unlawful)),
    // no record is there
    (Read(521), Some(ReplayError::Unlawful)),
    (Fill(521, 520, Nothing), Some(ReplayError::Unlawful)),
    // there is room, or there is none
    (Room(3569, false), Some(ReplayError::Unlawful)),
    (Claim(3570), Some(ReplayError::Unlawful)),
    (Claim(0), Some(ReplayError::Unlawful)),
    (Claim(3569), None),
    // the block is another call's
    (Fill(520, 525, OfA), Some(ReplayError::Unlawful)),
    // the counter has 64 bits
    (Room(u64::MAX, true), Some(ReplayError::TooFar)),
    // an object's cell names no record
    (Read(520), Some(ReplayError::Unbound(525))),
];

fn who(session: u32, index: u32) -> Who {
    Who { session, index }
}

fn at(at: u64) -> Place {
    Place { at }
}

fn object(alloc: Global, refs: &[Digest], data: &[u8]) -> Result<Object, AllocError> {
    Ok(Object {
        refs: Refs::of(alloc, refs)?,
        data: Data::of(alloc, data)?,
    })
}

fn event_of(alloc: Global, row: &Row) -> Result<Event, Fail> {
    let (session, index, stage, what, _) = *row;
    let act = match what {
        Look(space, name) => Act::Look(space, name.digest()?),
        Bind(space, name, own) => Act::Bind(space, name.digest()?, Some(at(own))),
        Met(space, name) => Act::Bind(space, name.digest()?, None),
        Read(cell) => Act::Read(at(cell)),
        Claim(words) => Act::Claim(words),
        Room(words, moved) => Act::Room(words, moved),
        Fill(cell, value, block) => {
            let words = Words::of(block.words(alloc)?);
            Act::Fill(at(cell), value, words)
        }
    };
    let note = Note {
        who: who(session, index),
        stage,
    };
    Ok(Event { note, act })
}

fn call_of(alloc: Global, ask: Ask) -> Result<Call, Fail> {
    Ok(match ask {
        StoreA => Call::Store(object(alloc, &[], b"a")?),
        StoreB => Call::Store(object(alloc, &[], b"b")?),
        StoreNode => Call::Store(object(alloc, &[A.digest()?], b"b")?),
        StoreDangling => Call::Store(object(alloc, &[A.digest()?, Nowhere.digest()?], b"m")?),
        Load(name) => Call::Load(name.digest()?),
        Put(key, value) => Call::Put(key.digest()?, value.digest()?),
        Get(key) => Call::Get(key.digest()?),
    })
}

fn calls_of(alloc: Global, asks: &[(u32, u32, Ask)]) -> Result<Vec<Asked>, Fail> {
    let mut calls = Vec::new(alloc);
    for (session, index, ask) in asks {
        let who = who(*session, *index);
        let call = call_of(alloc, *ask)?;
        calls.push(Asked { who, call })?;
    }
    Ok(calls)
}

/// An upstream of `a`, `b` and the node, in which the key has this value. Without one it is empty.
fn upstream(alloc: Global, value: Option<Name>) -> Result<Contents, Fail> {
    let mut objects = Vec::new(alloc);
    let mut actions = Vec::new(alloc);
    if let Some(name) = value {
        objects.push(object(alloc, &[], b"a")?)?;
        objects.push(object(alloc, &[], b"b")?)?;
        objects.push(object(alloc, &[A.digest()?], b"b")?)?;
        actions.push(Pair {
            key: Word.digest()?,
            value: name.digest()?,
        })?;
    }
    Ok(Contents { objects, actions })
}

/// A replay over an empty region of 4,096 words, by these events, each with the answer that it must have.
fn replay(
    alloc: Global,
    value: Option<Name>,
    asks: &[(u32, u32, Ask)],
    rows: &[Row],
) -> Result<Replay, Fail> {
    let calls = calls_of(alloc, asks)?;
    let below = upstream(alloc, value)?;
    let run = Replay::new(alloc, Rows::empty(alloc, 4096), below, calls);
    play(alloc, run, rows)
}

fn play(alloc: Global, mut run: Replay, rows: &[Row]) -> Result<Replay, Fail> {
    for row in rows {
        let event = event_of(alloc, row)?;
        if run.rows().answer(&event.act) != row.4 {
            return Err(Fail::new("another answer"));
        }
        run = run.push(event)?;
    }
    Ok(run)
}

/// Why the run does not go on by this event.
fn refusal(alloc: Global, run: Replay, row: &Row) -> Result<Option<ReplayError>, Fail> {
    let event = event_of(alloc, row)?;
    Ok(match run.push(event) {
        Ok(_) => None,
        Err(error) => Some(error),
    })
}

fn is_said(reply: &Reply, said: Said) -> Result<bool, Fail> {
    Ok(match (reply, said) {
        (Reply::Stored(d), Stored(name)) => *d == name.digest()?,
        (Reply::Found(o), FoundA) => o.refs.list().is_empty() && o.data.list() == b"a".as_slice(),
        (Reply::Found(o), FoundNode) => {
            o.refs.list() == [A.digest()?].as_slice() && o.data.list() == b"b".as_slice()
        }
        (Reply::Missing, Missing) | (Reply::Miss, Miss) => true,
        (Reply::Kept(d), Kept(name)) | (Reply::Hit(d), Hit(name)) => *d == name.digest()?,
        (Reply::Dangling { index, digest }, Dangling(i, name)) => {
            *index == i && *digest == name.digest()?
        }
        (Reply::Full { at, asked, size }, Full(a, n)) => {
            *at == a && *asked == n && *size == 4096
        }
        _ => false,
    })
}

/// Whether the decided calls and their replies are these, the newest first.
fn decided(run: &Replay, want: &[(u32, u32, Said)]) -> Result<bool, Fail> {
    let entries = run.history();
    if entries.len() != want.len() {
        return Ok(false);
    }
    for (entry, (session, index, said)) in entries.iter().zip(want) {
        if entry.who != who(*session, *index) || !is_said(&entry.reply, *said)? {
            return Ok(false);
        }
    }
    Ok(true)
}

#[test]
fn stores_decide_once_each(rt: HostRuntime) -> Result<(), Fail> {
    let alloc = rt.alloc();
    let asks = [(0, 0, StoreA), (0, 1, StoreA), (0, 2, StoreNode)];
    let run = replay(alloc, None, &asks, STORE_OF_A)?;
    assert!(rt; decided(&run, &[(0, 0, Stored(A))])?);
    let run = play(alloc, run, STORE_OF_NODE)?;
    let replies = [(0, 2, Stored(Node)), (0, 1, Stored(A)), (0, 0, Stored(A))];
    assert!(rt; decided(&run, &replies)?);
    Ok(())
}

#[test]
fn tables_are_those_of_the_events(rt: HostRuntime) -> Result<(), Fail> {
    let alloc = rt.alloc();
    let run = replay(alloc, None, &[], STORE_OF_A)?;
    let rows = run.into_rows();
    assert_eq!(rt;
        (rows.size(), rows.counter(), rows.given()),
        (4096, 527, 527)
    );
    let record = Record {
        space: Objects,
        digest: A.digest()?,
        place: at(520),
    };
    assert_eq!(rt; rows.bound(), [record].as_slice());
    assert_eq!(rt; rows.record_at(520), Some(record));
    assert_eq!(rt; rows.place_of(Objects, &record.digest), AT_520);
    let cell = Cell {
        of: at(520),
        value: 525,
    };
    assert_eq!(rt; rows.filled(), [cell].as_slice());
    assert_eq!(rt; rows.cell_of(520), 525);
    assert_eq!(rt; rows.words_at(525), Some([1, 0x61].as_slice()));
    assert_eq!(rt; rows.blocks().len(), 1);
    let claim = |place, length| ClaimedBlock {
        who: who(0, 0),
        place,
        length,
    };
    assert_eq!(rt; rows.claims(), [claim(525, 2), claim(520, 5)].as_slice());
    Ok(())
}

#[test]
fn lost_fills_answer_what_stands(rt: HostRuntime) -> Result<(), Fail> {
    let alloc = rt.alloc();
    let asks = [
        (0, 0, StoreA),
        (1, 0, StoreA),
        (1, 1, StoreB),
        (0, 1, Put(Word, A)),
        (1, 2, Put(Word, B)),
    ];
    let run = replay(alloc, None, &asks, RACE)?;
    assert!(rt; decided(&run, &[(0, 0, Stored(A)), (1, 0, Stored(A))])?);
    assert_eq!(rt;
        (run.rows().cell_of(520), run.rows().filled().len()),
        (532, 1)
    );
    assert_eq!(rt; run.rows().words_at(530), None);
    let run = play(alloc, run, PUTS)?;
    let replies = [
        (1, 2, Kept(A)),
        (0, 1, Kept(A)),
        (1, 1, Stored(B)),
        (0, 0, Stored(A)),
        (1, 0, Stored(A)),
    ];
    assert!(rt; decided(&run, &replies)?);
    Ok(())
}

#[test]
fn what_is_absent_is_said_so(rt: HostRuntime) -> Result<(), Fail> {
    let alloc = rt.alloc();
    let asks = [
        (0, 0, StoreA),
        (0, 1, StoreDangling),
        (0, 2, Put(Word, Nowhere)),
        (0, 3, Load(Nowhere)),
        (0, 4, Get(Word)),
        (0, 5, Load(A)),
    ];
    let run = replay(alloc, None, &asks, STORE_OF_A)?;
    let run = play(alloc, run, ABSENT)?;
    let replies = [
        (0, 5, FoundA),
        (0, 4, Miss),
        (0, 3, Missing),
        (0, 2, Dangling(0, Nowhere)),
        (0, 1, Dangling(1, Nowhere)),
        (0, 0, Stored(A)),
    ];
    assert!(rt; decided(&run, &replies)?);
    Ok(())
}

#[test]
fn refused_claims_say_their_numbers(rt: HostRuntime) -> Result<(), Fail> {
    let asks = [(0, 0, StoreA), (1, 0, StoreA), (2, 0, StoreA)];
    let run = replay(rt.alloc(), None, &asks, REFUSED)?;
    let replies = [
        (2, 0, Full(4100, 1)),
        (1, 0, Full(4095, 5)),
        (0, 0, Full(4095, 2)),
    ];
    assert!(rt; decided(&run, &replies)?);
    assert_eq!(rt; (run.rows().counter(), run.rows().given()), (4100, 4095));
    Ok(())
}

#[test]
fn hits_are_brought_in_from_the_upstream(rt: HostRuntime) -> Result<(), Fail> {
    let asks = [(0, 0, Get(Word)), (0, 1, Load(Node))];
    let run = replay(rt.alloc(), Some(Node), &asks, FAULT_IN)?;
    assert!(rt; decided(&run, &[(0, 1, FoundNode), (0, 0, Hit(Node))])?);
    Ok(())
}

#[test]
fn unlawful_events_are_refused(rt: HostRuntime) -> Result<(), Fail> {
    let alloc = rt.alloc();
    for (what, want) in NEXT {
        let run = replay(alloc, None, &[(1, 0, Put(Word, A))], STORE_OF_A)?;
        assert_eq!(rt; refusal(alloc, run, &(1, 0, Key, *what, Won(0)))?, *want);
    }
    let unlawful = Some(ReplayError::Unlawful);
    // the upstream has another value
    let run = replay(alloc, Some(B), &[], STORE_OF_A)?;
    let run = play(alloc, run, BOUND_KEY)?;
    let row = (0, 0, Key, Fill(527, 520, Nothing), Won(0));
    assert_eq!(rt; refusal(alloc, run, &row)?, unlawful);
    // a parent is filled before its reference
    let run = replay(alloc, None, &[], BOUND_NODE)?;
    let row = (0, 0, Deep, Fill(525, 530, OfNode), Won(0));
    assert_eq!(rt; refusal(alloc, run, &row)?, unlawful);
    Ok(())
}

#[test]
fn a_run_starts_where_another_ended(rt: HostRuntime) -> Result<(), Fail> {
    let alloc = rt.alloc();
    let mut events = Vec::new(alloc);
    for row in STORE_OF_A {
        events.push(event_of(alloc, row)?)?;
    }
    events.push(event_of(alloc, &(1, 0, Own, Room(4000, true), Refused(527)))?)?;
    let calls = calls_of(alloc, &[(0, 0, StoreA)])?;
    let empty = Rows::empty(alloc, 4096);
    let run = Replay::of(alloc, empty, upstream(alloc, None)?, calls, events)?;
    assert!(rt; decided(&run, &[(0, 0, Stored(A))])?);
    assert_eq!(rt; (run.rows().counter(), run.rows().given()), (4527, 527));
    let start = run.into_rows().ended();
    assert_eq!(rt; (start.counter(), start.given()), (4096, 4096));
    assert!(rt; start.claims().is_empty());
    let calls = calls_of(alloc, &[(0, 0, Load(A))])?;
    let run = Replay::new(alloc, start, upstream(alloc, None)?, calls);
    let run = play(alloc, run, LOAD_OF_A)?;
    assert!(rt; decided(&run, &[(0, 0, FoundA)])?);
    Ok(())
}
