// Runs over sources and sinks in memory: the worked answers, with ids that another implementation of SHA-256 computed.
use cas_command::{Answer, Large, answer_text};
use cas_model::{Digest, Full, Id, IdError};
use cas_outside::{MemSink, MemSource};
use cas_script::LineKind;
use command_line::UsageKind;
use image_file::ImageError;
use region_check::{Flaw, FlawKind};
use run_fixtures::{EMPTY, End, HELLO, Ran, ZERO, fresh_folder, nothing, owned, run_words};
use std::alloc::Global;
use std::test::Fail;
use test_fixtures::{ABSENT, hashed, hashed_key};

// Runs these words in a fresh folder, on a source of these bytes, with the calls of source and sink that fail.
fn run_failing(
    rt: &HostRuntime,
    words: &[&str],
    bytes: Vec<u8>,
    failing_reads: &[u64],
    failing_writes: &[u64],
) -> Result<Ran, Fail> {
    let mut folder = fresh_folder(rt.alloc());
    let words = owned(rt.alloc(), words)?;
    let source = MemSource::new(bytes, failing_reads.to_vec(rt.alloc())?);
    let sink = MemSink::new(rt.alloc(), 2_000, 7, failing_writes.to_vec(rt.alloc())?)?;
    run_words(rt, &mut folder, &words, source, sink)
}

// How these words end in a fresh folder, on a source of these bytes.
fn end_of(rt: &HostRuntime, words: &[&str], bytes: &[u8]) -> Result<End, Fail> {
    let bytes = bytes.to_vec(rt.alloc())?;
    Ok(run_failing(rt, words, bytes, &[], &[])?.end())
}

// Whether these words do all in a fresh folder, on a source of these bytes, and write just this.
fn writes(rt: &HostRuntime, words: &[&str], bytes: &[u8], text: &[u8]) -> Result<bool, Fail> {
    let bytes = bytes.to_vec(rt.alloc())?;
    Ok(run_failing(rt, words, bytes, &[], &[])?.wrote(text))
}

const MAKE_BLOB: [&str; 3] = ["--cas", "c", "--make-blob"];

#[test]
fn a_blob_becomes_its_id(rt: HostRuntime) -> Result<(), Fail> {
    assert!(rt; writes(&rt, &MAKE_BLOB, b"", EMPTY.as_bytes())?);
    for _ in 0..2 {
        assert!(rt; writes(&rt, &MAKE_BLOB, b"hello", HELLO.as_bytes())?);
    }
    let words = ["--cas", "c", "--make-node"];
    assert!(rt; writes(&rt, &words, b"hello", HELLO.as_bytes())?);
    Ok(())
}

#[test]
fn faults_have_their_answers(rt: HostRuntime) -> Result<(), Fail> {
    let hello = || b"hello".to_vec(rt.alloc());
    for call in 1..3 {
        let end = run_failing(&rt, &MAKE_BLOB, hello()?, &[call], &[])?.end();
        assert_eq!(rt; end, nothing(3, Answer::ReadFault));
    }
    let end = run_failing(&rt, &MAKE_BLOB, hello()?, &[], &[1])?.end();
    assert_eq!(rt; end, nothing(4, Answer::WriteFault));
    let cut = run_failing(&rt, &MAKE_BLOB, hello()?, &[], &[3])?;
    assert_eq!(rt; (cut.status, cut.answer), (4, Answer::WriteFault));
    assert_eq!(rt; cut.sink.written(), b"llvmcas://e497".as_slice());
    Ok(())
}

#[test]
fn other_words_are_refused(rt: HostRuntime) -> Result<(), Fail> {
    let cases: [(&[&str], UsageKind); 4] = [
        (&[], UsageKind::Words),
        (
            &["--cas", "c", "--batch", "--workers", "65"],
            UsageKind::Words,
        ),
        (&["--cas", "c", "--cat-node-data"], UsageKind::Operands(0)),
        (
            &["--cas", "c", "--cat-node-data", "llvmcas://12"],
            UsageKind::BadOperand(0, IdError::BadLength),
        ),
    ];
    for (words, kind) in cases {
        let end = end_of(&rt, words, b"hello")?;
        assert_eq!(rt; end, nothing(2, Answer::Usage(kind)));
    }
    Ok(())
}

#[test]
fn a_workload_is_summed_up(rt: HostRuntime) -> Result<(), Fail> {
    // The source is not read: its first call would fail.
    let words = ["--cas", "c", "--workload", "1", "--workers", "1"];
    let ran = run_failing(&rt, &words, Vec::new(rt.alloc()), &[1], &[])?;
    let want = "workload 1: sessions 8, lines 40, full 0, objects 7, actions 3\n";
    assert!(rt; ran.wrote(want.as_bytes()));
    let words = ["--cas", "c", "--validate"];
    let ran = run_failing(&rt, &words, Vec::new(rt.alloc()), &[1], &[])?;
    assert!(rt; ran.wrote(b""));
    Ok(())
}

#[test]
fn an_object_has_at_most_65535_references(rt: HostRuntime) -> Result<(), Fail> {
    let mut folder = fresh_folder(rt.alloc());
    let mut words = owned(rt.alloc(), &["--cas", "c", "--make-node"])?;
    for _ in 0..65_536 {
        words.push(ZERO.to_string(rt.alloc())?)?;
    }
    let source = MemSource::new(Vec::new(rt.alloc()), Vec::new(rt.alloc()));
    let sink = MemSink::new(rt.alloc(), 100, 7, Vec::new(rt.alloc()))?;
    let large = Answer::TooLarge {
        what: Large::References,
        number: 65_536,
    };
    let ran = run_words(&rt, &mut folder, &words, source, sink)?;
    assert_eq!(rt; ran.end(), nothing(12, large));
    Ok(())
}

#[test]
fn an_empty_store_has_nothing(rt: HostRuntime) -> Result<(), Fail> {
    let dangling = Answer::Dangling {
        index: 0,
        digest: ABSENT,
    };
    let abc = hashed_key(b"abc");
    let cases: [(&[&str], u8, Answer); 5] = [
        (&["--make-node", ZERO], 9, dangling),
        (&["--put-cache-key", "action:k", ZERO], 9, dangling),
        (&["--cat-node-data", ZERO], 1, Answer::Missing(ABSENT)),
        (&["--ls-node-refs", ZERO], 1, Answer::Missing(ABSENT)),
        (
            &["--get-cache-result", "action:abc"],
            1,
            Answer::Missing(abc),
        ),
    ];
    for (command, status, answer) in cases {
        let mut words = Vec::new(rt.alloc());
        words.push("--cas")?;
        words.push("c")?;
        for word in command {
            words.push(*word)?;
        }
        let end = end_of(&rt, &words, b"x")?;
        assert_eq!(rt; end, nothing(status, answer));
    }
    let text = answer_text(rt.alloc(), &Answer::Missing(abc))?;
    let wanted =
        "llvm-cas: missing llvmcas://ba7816bf8f01cfea414140de5dae2223b00361a396177a9cb410ff61f20015ad\n";
    assert_eq!(rt; text.as_slice(), wanted.as_bytes());
    Ok(())
}

const BATCH: [&str; 3] = ["--cas", "c", "--batch"];

#[test]
fn a_batch_writes_the_replies_of_its_sessions(rt: HostRuntime) -> Result<(), Fail> {
    let script = "session\nstore -\nstore - %1 %1 %1\nload %2\n";
    let empty = EMPTY.trim_end();
    let node = Id {
        digest: three_of(hashed(&[], &[])),
    };
    let mut wanted = format!(in rt.alloc(); "0.1 stored {empty}\n0.2 stored ")?.into_bytes();
    wanted.extend_from_slice(node.text(rt.alloc())?.as_slice())?;
    let found = format!(in rt.alloc(); "\n0.3 found - {empty} {empty} {empty}\n")?;
    wanted.extend_from_slice(found.as_bytes())?;
    assert!(rt; writes(&rt, &BATCH, script.as_bytes(), &wanted)?);
    Ok(())
}

// The digest of the object with no data that refers three times to this one.
fn three_of(digest: Digest) -> Digest {
    hashed(&[digest, digest, digest], &[])
}

#[test]
fn sessions_run_in_turn(rt: HostRuntime) -> Result<(), Fail> {
    let x = "llvmcas://7ee3b4a1b3e5d2b8a2a6b7c8d9e0f1a2b3c4d5e6f708192a3b4c5d6e7f809102";
    let script = format!(in rt.alloc();
        "session\nstore t:x\nload {x}\nsession\nget action:k\nput action:k {x}"
    )?;
    let mut stored = b"0.1 stored ".to_vec(rt.alloc())?;
    let id = Id {
        digest: hashed(&[], b"x"),
    };
    stored.extend_from_slice(id.text(rt.alloc())?.as_slice())?;
    let rest = format!(in rt.alloc(); "\n0.2 missing\n1.1 miss\n1.2 dangling 0 {x}\n")?;
    stored.extend_from_slice(rest.as_bytes())?;
    assert!(rt; writes(&rt, &BATCH, script.as_bytes(), &stored)?);
    Ok(())
}

#[test]
fn a_script_is_read_or_refused(rt: HostRuntime) -> Result<(), Fail> {
    let bad = |line, kind| Answer::BadScript { line, kind };
    let cases = [
        ("", 0, Answer::Done),
        ("# nothing\n\n", 0, Answer::Done),
        (
            "session\nstore t:a\nload %2",
            10,
            bad(3, LineKind::BadReference),
        ),
        ("load %1", 10, bad(1, LineKind::NoSession)),
        ("session\n\nkeep t:a", 10, bad(3, LineKind::BadVerb)),
    ];
    for (script, status, answer) in cases {
        let end = end_of(&rt, &BATCH, script.as_bytes())?;
        assert_eq!(rt; end, nothing(status, answer));
    }
    let unread = run_failing(&rt, &BATCH, b"session".to_vec(rt.alloc())?, &[1], &[])?;
    assert_eq!(rt; unread.end(), nothing(3, Answer::ReadFault));
    Ok(())
}

// How a batch ends whose script is a comment of so many bytes.
fn end_of_comment(rt: &HostRuntime, count: usize) -> Result<End, Fail> {
    let script = vec![in rt.alloc(); b'#'; count]?;
    Ok(run_failing(rt, &BATCH, script, &[], &[])?.end())
}

#[test]
fn a_script_has_at_most_16_mib(rt: HostRuntime) -> Result<(), Fail> {
    let most = end_of_comment(&rt, SCRIPT_BYTES)?;
    assert_eq!(rt; most, nothing(0, Answer::Done));
    let large = Answer::TooLarge {
        what: Large::Script,
        number: 16_777_217,
    };
    let more = end_of_comment(&rt, SCRIPT_BYTES + 1)?;
    assert_eq!(rt; more, nothing(12, large));
    Ok(())
}

/// The most bytes that a script has.
const SCRIPT_BYTES: usize = 16_777_216;

// Whether each of these answers has its text.
fn have_texts(alloc: Global, cases: &[(Answer, &str)]) -> Result<bool, Fail> {
    for (answer, text) in cases {
        if answer_text(alloc, answer)?.as_slice() != text.as_bytes() {
            return Ok(false);
        }
    }
    Ok(true)
}

#[test]
fn each_refusal_of_words_has_its_text(rt: HostRuntime) -> Result<(), Fail> {
    let operand = |error| Answer::Usage(UsageKind::BadOperand(3, error));
    let cases = [
        (
            Answer::Usage(UsageKind::Words),
            "llvm-cas: usage: bad words\n",
        ),
        (
            Answer::Usage(UsageKind::Operands(12)),
            "llvm-cas: usage: 12 operands\n",
        ),
        (
            operand(IdError::BadPrefix),
            "llvm-cas: usage: operand 3: prefix\n",
        ),
        (
            operand(IdError::BadLength),
            "llvm-cas: usage: operand 3: length\n",
        ),
        (
            operand(IdError::BadDigit(5)),
            "llvm-cas: usage: operand 3: digit 5\n",
        ),
    ];
    assert!(rt; have_texts(rt.alloc(), &cases)?);
    Ok(())
}

#[test]
fn each_answer_has_its_text(rt: HostRuntime) -> Result<(), Fail> {
    let large = Answer::TooLarge {
        what: Large::Data,
        number: 16_777_216,
    };
    let many = Answer::TooLarge {
        what: Large::References,
        number: 65_536,
    };
    let script = Answer::TooLarge {
        what: Large::Script,
        number: 16_777_217,
    };
    let bad = Answer::BadScript {
        line: 3,
        kind: LineKind::BadReference,
    };
    let dangling = Answer::Dangling {
        index: 7,
        digest: ABSENT,
    };
    let poisoned = Answer::Poisoned {
        wanted: ABSENT,
        kept: ABSENT,
    };
    let cases = [
        (Answer::Done, ""),
        (
            Answer::Missing(ABSENT),
            "llvm-cas: missing llvmcas://0000000000000000000000000000000000000000000000000000000000000000\n",
        ),
        (
            poisoned,
            "llvm-cas: poisoned llvmcas://0000000000000000000000000000000000000000000000000000000000000000 llvmcas://0000000000000000000000000000000000000000000000000000000000000000\n",
        ),
        (
            dangling,
            "llvm-cas: dangling 7 llvmcas://0000000000000000000000000000000000000000000000000000000000000000\n",
        ),
        (many, "llvm-cas: too large: references 65536\n"),
        (script, "llvm-cas: too large: script 16777217\n"),
        (bad, "llvm-cas: script line 3: 5\n"),
        (Answer::ReadFault, "llvm-cas: cannot read the input\n"),
        (Answer::WriteFault, "llvm-cas: cannot write the output\n"),
        (large, "llvm-cas: too large: data 16777216\n"),
        (Answer::NoMemory, "llvm-cas: no memory\n"),
    ];
    assert!(rt; have_texts(rt.alloc(), &cases)?);
    Ok(())
}

#[test]
fn each_fault_of_the_folder_has_its_text(rt: HostRuntime) -> Result<(), Fail> {
    let full = Answer::Full(Full {
        at: 525,
        asked: 3_572,
        size: 4_096,
    });
    let damaged = |error| Answer::Damaged {
        name: 4_294_967_295,
        error,
    };
    let flawed = |kind| damaged(ImageError::Flaw(Flaw { place: 522, kind }));
    let cases = [
        (Answer::FolderFault, "llvm-cas: cannot use the folder\n"),
        (Answer::Held, "llvm-cas: the folder is in use\n"),
        (full, "llvm-cas: full 525 3572 4096\n"),
        (
            damaged(ImageError::Long),
            "llvm-cas: damaged v1.4294967295: too long\n",
        ),
        (
            damaged(ImageError::Short),
            "llvm-cas: damaged v1.4294967295: too short\n",
        ),
        (
            damaged(ImageError::Ragged),
            "llvm-cas: damaged v1.4294967295: ragged\n",
        ),
        (
            damaged(ImageError::Version(7)),
            "llvm-cas: damaged v1.4294967295: version 7\n",
        ),
        (
            damaged(ImageError::Sum {
                kept: ABSENT,
                found: ABSENT,
            }),
            "llvm-cas: damaged v1.4294967295: sum 0000000000000000000000000000000000000000000000000000000000000000 0000000000000000000000000000000000000000000000000000000000000000\n",
        ),
        (
            flawed(FlawKind::Overlap),
            "llvm-cas: damaged v1.4294967295: flaw 4 at 522\n",
        ),
        (
            flawed(FlawKind::DigestDiffers {
                kept: ABSENT,
                found: ABSENT,
            }),
            "llvm-cas: damaged v1.4294967295: flaw 10 at 522 0000000000000000000000000000000000000000000000000000000000000000 0000000000000000000000000000000000000000000000000000000000000000\n",
        ),
    ];
    assert!(rt; have_texts(rt.alloc(), &cases)?);
    Ok(())
}
