// Scripts that are run in turn, with their output worked out by hand from the rules of lines and replies. The ids were
// computed by another implementation of SHA-256.
ghost use Rattle.cas_script.specs.Limits.{FitsScript};

use cas_model::{Data, Digest, Refs, Reply, Who};
use cas_outside::{Gate, NoGate};
use cas_script::{Line, Lines, Script, Session, Sessions};
use cell_port::PlainPort;
use frozen_store::Frozen;
use sessions::{Replies, ReplyList, SessionReplies, SessionReplyList, render, run_in_turn};
use std::alloc::{AllocError, Global};
use std::cell::Cell;
use std::test::Fail;
use test_fixtures::{ABSENT, hashed};

const EMPTY: &str = "llvmcas://374708fff7719dd5979ec875d56cd2286f6d3cf7ec317a3b25632aab28ec37bb";

const HELLO: &str = "llvmcas://e49773b3ddae167d5fd8e83f8d02fb7525c54e8127a14767c0edbe206315b669";

const X: &str = "llvmcas://65094dcac6e080cfc5b7f72bbd21c7686cdba23256df27bc2fddd615d3f87aaa";

const Y: &str = "llvmcas://96f5a69f51fda94d5dd978cfb0a15032a96bf264f26bed7cc2cb86d4ee298938";

const THREE: &str = "llvmcas://379e66ad4339b5922043a2751bb423e26415a08c0c9f0c95a91e8f5d6d70885d";

// The id of the object with the data `y` and a reference to that of `x`, and of the one with no data that refers to it.
const Y_OVER_X: &str = "llvmcas://7fd124711ae138f0040aca4e77516be5830ab274980c15d2b874afa0c1ea3481";

const TOP: &str = "llvmcas://48eacd478eb0dd0d666a94af51c977676b02c61462e548845a659a882a0c05b9";

// The id of 32 zero bytes, which no object has.
const ZERO: &str = "llvmcas://0000000000000000000000000000000000000000000000000000000000000000";

// A gate that counts the calls that it has let out, and keeps the sum of their indexes.
#[derive(Drop)]
struct Counter {
    calls: Cell<u32>,
    indexes: Cell<u32>,
}

impl Gate for Counter {
    fn before(&self, who: Who) {
        self.indexes.set(self.indexes.get().wrapping_add(who.index));
    }

    fn after(&self, _who: Who) {
        self.calls.set(self.calls.get().wrapping_add(1));
    }
}

// The output of a script in an empty region of 4,096 words.
fn run_script<G: Gate>(alloc: Global, script: &Script, gate: &G) -> Result<Vec<u8>, AllocError>
    requires { FitsScript script.now }
{
    let mut port = PlainPort::new(alloc, 4096)?;
    let replies = run_in_turn(alloc, &mut port, None, script, gate)?;
    render(alloc, script, &replies)
}

// The output of a script's text, and no bytes where it is none.
fn output(alloc: Global, text: &str) -> Result<Vec<u8>, AllocError> {
    match Script::parse(alloc, text.as_bytes()) {
        Ok(script) => run_script(alloc, &script, &NoGate),
        Err(_) => Ok(Vec::new(alloc)),
    }
}

#[test]
fn an_object_is_stored_and_found(rt: HostRuntime) -> Result<(), Fail> {
    let alloc = rt.alloc();
    let is = output(alloc, "session\nstore -\nstore - %1 %1 %1\nload %2\n")?;
    let want = format!(in alloc;
        "0.1 stored {EMPTY}\n0.2 stored {THREE}\n0.3 found - {EMPTY} {EMPTY} {EMPTY}\n"
    )?;
    assert_eq!(rt; is.as_slice(), want.as_bytes());
    Ok(())
}

#[test]
fn sessions_run_in_turn(rt: HostRuntime) -> Result<(), Fail> {
    let alloc = rt.alloc();
    let text = format!(in alloc; "session\nstore t:x\nload {Y}\nsession\nstore t:y\nload {X}\n")?;
    let is = output(alloc, text.as_str())?;
    let want = format!(in alloc; "0.1 stored {X}\n0.2 missing\n1.1 stored {Y}\n1.2 found x:78\n")?;
    assert_eq!(rt; is.as_slice(), want.as_bytes());
    Ok(())
}

#[test]
fn an_action_is_made_once(rt: HostRuntime) -> Result<(), Fail> {
    let alloc = rt.alloc();
    let text =
        "session\nget action:abc\nact action:abc t:hello\nact action:abc t:x\nget action:abc\nsession\nact action:abc -\n";
    let is = output(alloc, text)?;
    let want = format!(in alloc;
        "0.1 miss\n0.2 made {HELLO}\n0.3 hit {HELLO}\n0.4 hit {HELLO}\n1.1 hit {HELLO}\n"
    )?;
    assert_eq!(rt; is.as_slice(), want.as_bytes());
    Ok(())
}

#[test]
fn a_key_keeps_its_first_value(rt: HostRuntime) -> Result<(), Fail> {
    let alloc = rt.alloc();
    let text = "session\nstore t:x\nstore t:y\nput action:k %1\nput action:k %2\nput action:k %1\n";
    let is = output(alloc, text)?;
    let want = format!(in alloc;
        "0.1 stored {X}\n0.2 stored {Y}\n0.3 kept {X}\n0.4 poisoned {Y} {X}\n0.5 kept {X}\n"
    )?;
    assert_eq!(rt; is.as_slice(), want.as_bytes());
    Ok(())
}

#[test]
fn the_first_absent_reference_is_named(rt: HostRuntime) -> Result<(), Fail> {
    let alloc = rt.alloc();
    let text = format!(in alloc;
        "session\nstore t:x\nstore - %1 {ZERO}\nput action:k {ZERO}\nact action:k - {ZERO}\n"
    )?;
    let is = output(alloc, text.as_str())?;
    let want = format!(in alloc;
        "0.1 stored {X}\n0.2 dangling 1 {ZERO}\n0.3 dangling 0 {ZERO}\n0.4 dangling 0 {ZERO}\n"
    )?;
    assert_eq!(rt; is.as_slice(), want.as_bytes());
    Ok(())
}

// The generation that a script's text makes in an empty region of 4,096 words.
fn generation(alloc: Global, text: &str) -> Result<Option<Frozen>, AllocError> {
    match Script::parse(alloc, text.as_bytes()) {
        Ok(script) => {
            let mut port = PlainPort::new(alloc, 4096)?;
            let _replies = run_in_turn(alloc, &mut port, None, &script, &NoGate)?;
            let contents = port.contents()?;
            Ok(Frozen::of_contents(alloc, &contents, 4096).ok())
        }
        Err(_) => Ok(None),
    }
}

// The output of a script's text in an empty region over a generation, and no bytes where it is none.
fn output_over(alloc: Global, up: &Frozen, text: &str) -> Result<Vec<u8>, AllocError> {
    match Script::parse(alloc, text.as_bytes()) {
        Ok(script) => {
            let mut port = PlainPort::new(alloc, 4096)?.under(up);
            let replies = run_in_turn(alloc, &mut port, Some(up), &script, &NoGate)?;
            render(alloc, &script, &replies)
        }
        Err(_) => Ok(Vec::new(alloc)),
    }
}

#[test]
fn what_only_the_upstream_has_is_found(rt: HostRuntime) -> Result<(), Fail> {
    let alloc = rt.alloc();
    let text =
        "session\nstore t:x\nstore t:y %1\nput action:k %2\nstore t:hello\nput action:l %4\n";
    let up = generation(alloc, text)?.expect(&rt, "it fits");
    let text = format!(in alloc;
        "session\nload {Y_OVER_X}\nload {X}\nget action:k\nget action:l\nload {HELLO}\nload {Y}\nget action:m\n"
    )?;
    let is = output_over(alloc, &up, text.as_str())?;
    let want = format!(in alloc;
        "0.1 found x:79 {X}\n0.2 found x:78\n0.3 hit {Y_OVER_X}\n0.4 hit {HELLO}\n0.5 found x:68656c6c6f\n0.6 missing\n0.7 miss\n"
    )?;
    assert_eq!(rt; is.as_slice(), want.as_bytes());
    Ok(())
}

#[test]
fn a_key_of_the_upstream_keeps_its_value(rt: HostRuntime) -> Result<(), Fail> {
    let alloc = rt.alloc();
    let text = "session\nstore t:x\nstore t:y %1\nput action:k %2\n";
    let up = generation(alloc, text)?.expect(&rt, "it fits");
    let text = format!(in alloc;
        "session\nstore t:y\nput action:k %1\nact action:k t:hello\nsession\nstore - {Y_OVER_X}\n"
    )?;
    let is = output_over(alloc, &up, text.as_str())?;
    let want = format!(in alloc;
        "0.1 stored {Y}\n0.2 poisoned {Y} {Y_OVER_X}\n0.3 hit {Y_OVER_X}\n1.1 stored {TOP}\n"
    )?;
    assert_eq!(rt; is.as_slice(), want.as_bytes());
    Ok(())
}

// The text of letters, with a front and an end.
fn repeated(
    alloc: Global,
    front: &str,
    letter: char,
    count: usize,
    end: &str,
) -> Result<String, AllocError> {
    let mut text = front.to_string(alloc)?;
    for _ in 0..count {
        text.push(letter)?;
    }
    text.push_str(end)?;
    Ok(text)
}

#[test]
fn a_region_can_be_full(rt: HostRuntime) -> Result<(), Fail> {
    let alloc = rt.alloc();
    // A record takes 5 words from 520 on, and the content would take one word and 5,000 more.
    let text = repeated(alloc, "session\nstore t:", 'a', 40_000, "\nstore t:x\n")?;
    let is = output(alloc, text.as_str())?;
    let want = format!(in alloc; "0.1 full 525 5001 4096\n0.2 stored {X}\n")?;
    assert_eq!(rt; is.as_slice(), want.as_bytes());
    Ok(())
}

#[test]
fn the_gate_stands_round_each_call(rt: HostRuntime) -> Result<(), Fail> {
    let gate = Counter {
        calls: Cell::new(0),
        indexes: Cell::new(0),
    };
    let text =
        "session\nstore t:x\nact action:abc t:hello\nload %1\nsession\nget action:abc\nget action:abc\n";
    match Script::parse(rt.alloc(), text.as_bytes()) {
        Ok(script) => {
            let _output = run_script(rt.alloc(), &script, &gate)?;
        }
        Err(error) => panic!(rt; "{error}"),
    }
    // Calls 0 to 4, and calls 0 and 1.
    assert_eq!(rt; gate.calls.get(), 7);
    assert_eq!(rt; gate.indexes.get(), 11);
    Ok(())
}

// The output of a script of one line, which has these replies.
fn one_line(alloc: Global, line: Line, replies: Vec<Reply>) -> Result<Vec<u8>, AllocError> {
    let mut lines = Vec::new(alloc);
    lines.push(line)?;
    let mut sessions = Vec::new(alloc);
    sessions.push(Session {
        lines: Lines::from_vec(lines),
    })?;
    let script = Script {
        sessions: Sessions::from_vec(sessions),
    };
    let mut own = Vec::new(alloc);
    own.push(SessionReplies {
        replies: ReplyList::from_vec(replies),
    })?;
    let replies = Replies {
        sessions: SessionReplyList::from_vec(own),
    };
    render(alloc, &script, &replies)
}

fn action(alloc: Global) -> Line {
    Line::Act {
        key: ABSENT,
        refs: Refs::from_vec(Vec::new(alloc)),
        data: Data::from_vec(Vec::new(alloc)),
    }
}

#[test]
fn an_action_can_come_too_late(rt: HostRuntime) -> Result<(), Fail> {
    let alloc = rt.alloc();
    let x = hashed(&[], b"x");
    let y = hashed(&[], b"y");
    let mut replies = Vec::new(alloc);
    replies.push(Reply::Miss)?;
    replies.push(Reply::Stored(x))?;
    replies.push(Reply::Kept(y))?;
    let is = one_line(alloc, action(alloc), replies)?;
    let want = format!(in alloc; "0.1 poisoned {X} {Y}\n")?;
    assert_eq!(rt; is.as_slice(), want.as_bytes());
    Ok(())
}

#[test]
fn an_action_can_find_no_room(rt: HostRuntime) -> Result<(), Fail> {
    let alloc = rt.alloc();
    let mut replies = Vec::new(alloc);
    replies.push(Reply::Miss)?;
    replies.push(Reply::Full {
        at: 4095,
        asked: 5,
        size: 4096,
    })?;
    let is = one_line(alloc, action(alloc), replies)?;
    assert_eq!(rt; is.as_slice(), b"0.1 full 4095 5 4096\n".as_slice());
    Ok(())
}
