// Workloads, whose works were worked out by hand, and scripts of one call.
ghost use Rattle.cas_script.specs.Limits.{FitsScript};

use crate::script_tests::shown;
use cas_model::{Call, Data, Digest, Object, Refs};
use cas_outside::NoGate;
use cas_script::{Script, workload};
use cell_port::PlainPort;
use frozen_store::Counts;
use sessions::{full_lines, run_in_turn, summary};
use std::alloc::{AllocError, Global};
use std::test::Fail;
use test_fixtures::{hashed, hashed_key};

/// The works of the eight sessions for one round, K = 7 s mod 3.
const ONE: [[u64; 1]; 8] = [[0], [1], [2], [0], [1], [2], [0], [1]];

/// The works of the eight sessions for five rounds, K = (7 s + j j) mod 11.
const FIVE: [[u64; 5]; 8] = [
    [0, 1, 4, 9, 5],
    [7, 8, 0, 5, 1],
    [3, 4, 7, 1, 8],
    [10, 0, 3, 8, 4],
    [6, 7, 10, 4, 0],
    [2, 3, 6, 0, 7],
    [9, 10, 2, 7, 3],
    [5, 6, 9, 3, 10],
];

// Adds the text of a session that does these works.
fn push_session(alloc: Global, text: &mut String, works: &[u64]) -> Result<(), AllocError> {
    text.push_str(
        "session\nstore t:header-0\nstore t:header-1\nstore t:header-2\nstore t:header-3\n",
    )?;
    for work in works {
        let line = format!(in alloc; "act action:work-{work} t:work-{work} %1 %2 %3 %4\n")?;
        text.push_str(line.as_str())?;
    }
    Ok(())
}

// What a text reads as.
fn read(alloc: Global, text: &str) -> Result<String, AllocError> {
    match Script::parse(alloc, text.as_bytes()) {
        Ok(script) => shown(alloc, &script),
        Err(error) => format!(in alloc; "{error}"),
    }
}

#[test]
fn a_workload_is_its_text(rt: HostRuntime) -> Result<(), Fail> {
    let alloc = rt.alloc();
    let mut one = String::new(alloc);
    for works in &ONE {
        push_session(alloc, &mut one, works)?;
    }
    let is = shown(alloc, &workload(alloc, 1)?)?;
    assert_eq!(rt; is.as_str(), read(alloc, one.as_str())?.as_str());
    let mut five = String::new(alloc);
    for works in &FIVE {
        push_session(alloc, &mut five, works)?;
    }
    let is = shown(alloc, &workload(alloc, 5)?)?;
    assert_eq!(rt; is.as_str(), read(alloc, five.as_str())?.as_str());
    Ok(())
}

// The summary of a workload of one round, run in an empty region.
fn summary_of(alloc: Global, script: &Script) -> Result<Vec<u8>, AllocError>
    requires { FitsScript script.now }
{
    let mut port = PlainPort::new(alloc, 4096)?;
    let replies = run_in_turn(alloc, &mut port, None, script, &NoGate)?;
    let contents = port.contents()?;
    let counts = Counts {
        objects: contents.objects.len() as u64,
        actions: contents.actions.len() as u64,
    };
    if script.sessions.list().len() == replies.sessions.list().len() {
        summary(alloc, 1, 40, full_lines(script, &replies), &counts)
    } else {
        Ok(Vec::new(alloc))
    }
}

#[test]
fn a_workload_is_summed_up(rt: HostRuntime) -> Result<(), Fail> {
    let alloc = rt.alloc();
    let is = summary_of(alloc, &workload(alloc, 1)?)?;
    let want = "workload 1: sessions 8, lines 40, full 0, objects 7, actions 3\n";
    assert_eq!(rt; is.as_slice(), want.as_bytes());
    Ok(())
}

// Two of four lines find no room: an object, and the object of an action that missed its key.
#[test]
fn full_lines_are_counted(rt: HostRuntime) -> Result<(), Fail> {
    let alloc = rt.alloc();
    let large = vec![in alloc; b'a'; 40_000]?;
    let mut text = b"session\nstore t:".to_vec(alloc)?;
    text.extend_from_slice(large.as_slice())?;
    text.extend_from_slice(b"\nsession\nstore t:x\nact action:k t:")?;
    text.extend_from_slice(large.as_slice())?;
    text.extend_from_slice(b"\nget action:k\n")?;
    match Script::parse(alloc, text.as_slice()) {
        Ok(script) => {
            let is = summary_of(alloc, &script)?;
            let want = "workload 1: sessions 8, lines 40, full 2, objects 1, actions 0\n";
            assert_eq!(rt; is.as_slice(), want.as_bytes());
        }
        Err(error) => panic!(rt; "{error}"),
    }
    Ok(())
}

// The digests of `t:hello` and `action:abc` begin with e49773b3 and ba7816bf.
#[test]
fn a_call_is_a_script(rt: HostRuntime) -> Result<(), Fail> {
    let alloc = rt.alloc();
    let hello = hashed(&[], b"hello");
    let key = hashed_key(b"abc");
    let object = Object {
        refs: Refs::of(alloc, &[hello])?,
        data: Data::of(alloc, b"x")?,
    };
    let store = shown(alloc, &Script::single(alloc, Call::Store(object))?)?;
    assert_eq!(rt; store.as_str(), "[ store 78 e49773b3 / ] ");
    let load = shown(alloc, &Script::single(alloc, Call::Load(hello))?)?;
    assert_eq!(rt; load.as_str(), "[ load e49773b3 / ] ");
    let put = shown(alloc, &Script::single(alloc, Call::Put(key, hello))?)?;
    assert_eq!(rt; put.as_str(), "[ put ba7816bf e49773b3 / ] ");
    let get = shown(alloc, &Script::single(alloc, Call::Get(key))?)?;
    assert_eq!(rt; get.as_str(), "[ get ba7816bf / ] ");
    Ok(())
}
