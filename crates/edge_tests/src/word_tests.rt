// Lines of words: what they ask for, and why they are refused.
use cas_model::{Digest, IdError};
use command_line::{Command, Options, Request, Task, UsageKind, WordsError, read_words};
use std::alloc::{AllocError, Global};
use std::test::Fail;

const ABSENT: Digest = Digest { bytes: [0; 32] };

/// The id of `ABSENT`. In the lines below it is `ID`.
const ZERO: &str = "llvmcas://0000000000000000000000000000000000000000000000000000000000000000";

// The words of a line.
fn words_of(alloc: Global, line: &str) -> Result<Vec<String>, AllocError> {
    let mut words = Vec::new(alloc);
    for word in line.split_whitespace() {
        let word = if word == "ID" { ZERO } else { word };
        words.push(word.to_string(alloc)?)?;
    }
    Ok(words)
}

// What a line asks for, if it asks for anything.
fn asked(alloc: Global, line: &str) -> Result<Option<Request>, AllocError> {
    let words = words_of(alloc, line)?;
    Ok(read_words(alloc, &words).ok())
}

// Why a line is refused, if it is.
fn refused(alloc: Global, line: &str) -> Result<Option<WordsError>, AllocError> {
    let words = words_of(alloc, line)?;
    Ok(read_words(alloc, &words).err())
}

#[test]
fn lines_that_are_no_command(rt: HostRuntime) -> Result<(), Fail> {
    let lines = [
        // An option without its value, and values that are no numbers within bounds.
        "--cas c --batch --workers",
        "--cas c --batch --workers 0",
        "--cas c --batch --workers 65",
        "--cas c --batch --workers +4",
        "--cas c --batch --workers 007",
        "--cas c --batch --size 4095",
        "--cas c --batch --size 67108865",
        "--cas c --batch --limit 1099511627777",
        "--cas c --batch --limit 01",
        "--cas c --batch --limit -1",
        "--cas c --batch --limit 18446744073709551616",
        "--cas c --workload",
        "--cas c --workload 0",
        "--cas c --workload 10001",
        // An option that is given twice, two commands, and options that are none.
        "--cas c --batch --workers 4 --workers 4",
        "--cas c --batch --limit 0 --limit 0",
        "--cas c --make-blob --batch",
        "--cas c --batch --limits 0",
        "--cas c --prune --all",
        "--cas c --make-blob --data",
        "--cas c --batch -",
        "--cas c --make-node -",
        // No command, and another order.
        "",
        "--cas c",
        "--make-blob --cas c",
    ];
    for line in lines {
        let refusal = refused(rt.alloc(), line)?;
        assert_eq!(rt;
            refusal,
            Some(WordsError::Usage(UsageKind::Words)),
            "{line}"
        );
    }
    Ok(())
}

#[test]
fn operands_that_are_refused(rt: HostRuntime) -> Result<(), Fail> {
    let cases = [
        ("--cas c --workload 1 ID", UsageKind::Operands(1)),
        ("--cas c --validate --size 4096 ID", UsageKind::Operands(1)),
        ("--cas c --prune ID", UsageKind::Operands(1)),
        ("--cas c --batch ID", UsageKind::Operands(1)),
        ("--cas c --make-blob ID", UsageKind::Operands(1)),
        ("--cas c --cat-node-data", UsageKind::Operands(0)),
        ("--cas c --put-cache-key action:k", UsageKind::Operands(1)),
        (
            "--cas c --make-node ID llvmcas: x",
            UsageKind::BadOperand(1, IdError::BadPrefix),
        ),
        (
            "--cas c --cat-node-data llvmcas://12",
            UsageKind::BadOperand(0, IdError::BadLength),
        ),
        (
            "--cas c --put-cache-key ID action:k",
            UsageKind::BadOperand(1, IdError::BadPrefix),
        ),
    ];
    for (line, kind) in cases {
        let refusal = refused(rt.alloc(), line)?;
        assert_eq!(rt; refusal, Some(WordsError::Usage(kind)), "{line}");
    }
    Ok(())
}

#[test]
fn a_word_is_taken_as_it_stands(rt: HostRuntime) -> Result<(), Fail> {
    let mut words = words_of(rt.alloc(), "--cas c")?;
    words.push("--make-blob ".to_string(rt.alloc())?)?;
    let refusal = read_words(rt.alloc(), &words).err();
    assert_eq!(rt; refusal, Some(WordsError::Usage(UsageKind::Words)));
    Ok(())
}

#[test]
fn options_stand_anywhere_after_the_command(rt: HostRuntime) -> Result<(), Fail> {
    let given = Options {
        workers: 64,
        size: Some(4_096),
        limit: None,
    };
    let limited = |limit| Options {
        workers: 1,
        size: None,
        limit,
    };
    let most = limited(Some(1_099_511_627_776));
    let cases = [
        ("--cas c --make-node --workers 64 ID --size 4096 ID", given),
        ("--cas c --workload 10000 --size 4096 --workers 64", given),
        ("--cas c --make-blob", limited(None)),
        ("--cas c --validate", limited(None)),
        ("--cas c --make-node ID --limit 0", limited(Some(0))),
        ("--cas c --batch --limit 1099511627776", most),
    ];
    for (line, options) in cases {
        let read = asked(rt.alloc(), line)?.map(|request| request.options);
        assert_eq!(rt; read, Some(options), "{line}");
    }
    Ok(())
}

#[test]
fn operands_keep_their_order(rt: HostRuntime) -> Result<(), Fail> {
    let line = "--cas c --put-cache-key --workers 2 action:abc ID";
    match asked(rt.alloc(), line)?.map(|request| request.task) {
        Some(Task::Once(Command::PutCacheKey { key, value })) => {
            assert_eq!(rt; (key, value), (Digest::of_key(b"abc"), ABSENT));
        }
        _ => panic!(rt; "another task"),
    }
    Ok(())
}

#[test]
fn an_object_has_at_most_65535_references(rt: HostRuntime) -> Result<(), Fail> {
    let mut words = words_of(rt.alloc(), "--cas c --make-node")?;
    for _ in 0..65_535 {
        words.push(ZERO.to_string(rt.alloc())?)?;
    }
    assert!(rt; read_words(rt.alloc(), &words).is_ok());
    words.push(ZERO.to_string(rt.alloc())?)?;
    let refusal = read_words(rt.alloc(), &words).err();
    assert_eq!(rt; refusal, Some(WordsError::TooManyReferences(65_536)));
    Ok(())
}
