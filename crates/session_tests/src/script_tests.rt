// Texts that were read by hand from the language's rules, and digests that another implementation of SHA-256 computed.
use cas_model::Digest;
use cas_script::LineKind::{
    BadArguments, BadData, BadId, BadReference, BadVerb, NoSession, TooManyLines, TooManyRefs,
    TooManySessions,
};
use cas_script::{Line, LineKind, Script, ScriptError};
use std::alloc::{AllocError, Global};
use std::test::Fail;

// Adds the first four bytes of a digest and a space.
fn push_id(alloc: Global, out: &mut String, digest: &Digest) -> Result<(), AllocError> {
    let digits = hex::encode(alloc, &digest.bytes[..4])?;
    out.push_str(digits.as_str())?;
    out.push(' ')?;
    Ok(())
}

// Adds an object's data in hexadecimal digits and its references.
fn push_object(
    alloc: Global,
    out: &mut String,
    refs: &[Digest],
    bytes: &[u8],
) -> Result<(), AllocError> {
    let digits = hex::encode(alloc, bytes)?;
    out.push_str(digits.as_str())?;
    out.push(' ')?;
    for digest in refs {
        push_id(alloc, out, digest)?;
    }
    Ok(())
}

fn push_line(alloc: Global, out: &mut String, line: &Line) -> Result<(), AllocError> {
    match line {
        Line::Store { refs, data } => {
            out.push_str("store ")?;
            push_object(alloc, out, refs.list(), data.list())?;
        }
        Line::Load(digest) => {
            out.push_str("load ")?;
            push_id(alloc, out, digest)?;
        }
        Line::Put(key, value) => {
            out.push_str("put ")?;
            push_id(alloc, out, key)?;
            push_id(alloc, out, value)?;
        }
        Line::Get(key) => {
            out.push_str("get ")?;
            push_id(alloc, out, key)?;
        }
        Line::Act { key, refs, data } => {
            out.push_str("act ")?;
            push_id(alloc, out, key)?;
            push_object(alloc, out, refs.list(), data.list())?;
        }
    }
    out.push_str("/ ")?;
    Ok(())
}

// A script as one text: each session in brackets, each digest by its first four bytes.
pub fn shown(alloc: Global, script: &Script) -> Result<String, AllocError> {
    let mut out = String::new(alloc);
    for session in script.sessions.list() {
        out.push_str("[ ")?;
        for line in session.lines.list() {
            push_line(alloc, &mut out, line)?;
        }
        out.push_str("] ")?;
    }
    Ok(out)
}

// What a text reads as, or its error.
fn read(alloc: Global, text: &[u8]) -> Result<String, AllocError> {
    match Script::parse(alloc, text) {
        Ok(script) => shown(alloc, &script),
        Err(error) => format!(in alloc; "{error}"),
    }
}

// So many copies of a piece, after a front and before an end.
fn repeated(
    alloc: Global,
    front: &[u8],
    piece: &[u8],
    times: usize,
    end: &[u8],
) -> Result<Vec<u8>, AllocError> {
    let mut text = front.to_vec(alloc)?;
    for _ in 0..times {
        text.extend_from_slice(piece)?;
    }
    text.extend_from_slice(end)?;
    Ok(text)
}

fn refusal(alloc: Global, text: &[u8]) -> Option<ScriptError> {
    Script::parse(alloc, text).err()
}

// How such a text is refused.
fn repeated_refusal(
    alloc: Global,
    front: &[u8],
    piece: &[u8],
    times: usize,
    end: &[u8],
) -> Result<Option<ScriptError>, AllocError> {
    let text = repeated(alloc, front, piece, times, end)?;
    Ok(refusal(alloc, text.as_slice()))
}

// The digests of `-`, `t:hello`, `action:` and `action:abc` begin with 374708ff, e49773b3, e3b0c442 and ba7816bf.
#[test]
fn texts_are_read_line_by_line(rt: HostRuntime) -> Result<(), Fail> {
    let cases: [(&str, &str); 16] = [
        // No text, and lines that say nothing.
        ("", ""),
        ("\n\n# comment\n", ""),
        // A last line without an end, and two ends.
        ("session", "[ ] "),
        ("session\n\n", "[ ] "),
        ("session\nsession\n", "[ ] [ ] "),
        ("session\nstore t:hello", "[ store 68656c6c6f / ] "),
        // The forms of data, which may be empty or hold any byte but a space and an end of line.
        (
            "session\nstore -\nstore t:\nstore x:\n",
            "[ store  / store  / store  / ] ",
        ),
        ("session\nstore x:68656C6c6F\n", "[ store 68656c6c6f / ] "),
        (
            "session\nstore t:\0\r\u{ff}#%-\n",
            "[ store 000dc3bf23252d / ] ",
        ),
        // The forms of keys.
        (
            "session\nget action:\nget action:abc\n",
            "[ get e3b0c442 / get ba7816bf / ] ",
        ),
        ("session\nstore -\nget %1\n", "[ store  / get 374708ff / ] "),
        (
            "session\nload llvmcas://E49773B3DDAE167D5FD8E83F8D02FB7525C54E8127A14767C0EDBE206315B669\n",
            "[ load e49773b3 / ] ",
        ),
        // Numbers of lines count neither comments nor empty lines, and begin anew in each session.
        (
            "# first\nsession\nstore -\n\n# more\nstore t:hello\nload %2\nput %1 %2\nsession\nstore t:hello\nload %1\n",
            "[ store  / store 68656c6c6f / load e49773b3 / put 374708ff e49773b3 / ] [ store 68656c6c6f / load e49773b3 / ] ",
        ),
        // An object keeps its references in order, each as often as it stands there.
        (
            "session\nstore -\nstore t:hello\nstore - %2 %1 %2\n",
            "[ store  / store 68656c6c6f / store  e49773b3 374708ff e49773b3 / ] ",
        ),
        // An action stores its object, under a name of its own.
        (
            "session\nact action:abc t:hello\nload %1\n",
            "[ act ba7816bf 68656c6c6f / load e49773b3 / ] ",
        ),
        (
            "session\nact action:abc -\nact %1 t:hello %1 %1\n",
            "[ act ba7816bf  / act 374708ff 68656c6c6f 374708ff 374708ff / ] ",
        ),
    ];
    for (text, want) in &cases {
        let is = read(rt.alloc(), text.as_bytes())?;
        assert_eq!(rt; is.as_str(), *want, "at {text:?}");
    }
    Ok(())
}

// The first of these texts that is not refused so.
fn read_otherwise<'t>(alloc: Global, cases: &[(&'t str, u32, LineKind)]) -> Option<&'t str> {
    for (text, number, kind) in cases {
        if refusal(alloc, text.as_bytes()) != Some(ScriptError::Line(*number, *kind)) {
            return Some(*text);
        }
    }
    None
}

#[test]
fn words_and_places_are_refused_before_arguments(rt: HostRuntime) {
    let cases = [
        // Each refusal once.
        ("session\nbogus\n", 2, BadVerb),
        ("session\nload\n", 2, BadArguments),
        ("session\nload llvmcas://12\n", 2, BadId),
        ("session\nstore hello\n", 2, BadData),
        ("session\nstore t:a\nload %2\n", 3, BadReference),
        ("store t:a\n", 1, NoSession),
        // Words are whole tokens, and their case counts.
        ("Session\n", 1, BadVerb),
        ("sessions\n", 1, BadVerb),
        (" session\n", 1, BadVerb),
        ("session\r\n", 1, BadVerb),
        ("\0\n", 1, BadVerb),
        (" # comment\n", 1, BadVerb),
        // The word comes before the place, the place before the number of tokens, and that before the arguments.
        ("bogus\nsession\n", 1, BadVerb),
        ("load a b c\nsession\n", 1, NoSession),
        ("session\nload bad bad\n", 2, BadArguments),
        ("session\nput bad\n", 2, BadArguments),
        ("session now\n", 1, BadArguments),
        ("session \n", 1, BadArguments),
        ("session\nstore\n", 2, BadArguments),
        ("session\nget\n", 2, BadArguments),
        ("session\nget a b\n", 2, BadArguments),
        ("session\nput a b c\n", 2, BadArguments),
        ("session\nact action:k\n", 2, BadArguments),
    ];
    assert_eq!(rt; read_otherwise(rt.alloc(), &cases), None);
}

#[test]
fn arguments_are_refused_from_left_to_right(rt: HostRuntime) {
    let cases = [
        // Arguments from left to right.
        ("session\nput bad %1\n", 2, BadId),
        ("session\nput %1 bad\n", 2, BadReference),
        ("session\nact bad bad %1\n", 2, BadId),
        ("session\nact %9 bad bad\n", 2, BadReference),
        ("session\nact action:k bad %1\n", 2, BadData),
        ("session\nact action:k - %1 bad\n", 2, BadReference),
        ("session\nstore bad %1\n", 2, BadData),
        ("session\nstore - bad %1\n", 2, BadId),
        ("session\nstore - %1 bad\n", 2, BadReference),
        // Two spaces and a space at the end make an empty token.
        ("session\nload  %1\n", 2, BadArguments),
        ("session\nget action:k \n", 2, BadArguments),
        ("session\nstore  t:a\n", 2, BadData),
        ("session\nstore t:a \n", 2, BadId),
        ("session\nstore t:a  %1\n", 2, BadId),
        ("session\nput  action:k\n", 2, BadId),
        // Numbers of lines.
        ("session\nstore -\nload %\n", 3, BadId),
        ("session\nstore -\nload %0\n", 3, BadId),
        ("session\nstore -\nload %01\n", 3, BadId),
        ("session\nstore -\nload %00001\n", 3, BadId),
        ("session\nstore -\nload %100000\n", 3, BadId),
        ("session\nstore -\nload %+1\n", 3, BadId),
        ("session\nstore -\nload %1a\n", 3, BadId),
        ("session\nstore -\nload %1\r\n", 3, BadId),
        ("session\nstore -\nload %99999\n", 3, BadReference),
        ("session\nstore - %1\n", 2, BadReference),
        ("session\nact action:k - %1\n", 2, BadReference),
    ];
    assert_eq!(rt; read_otherwise(rt.alloc(), &cases), None);
}

#[test]
fn references_and_forms_are_those_of_the_session(rt: HostRuntime) {
    let cases = [
        // A line that stores nothing, and lines of another session.
        ("session\nstore -\nload %1\nload %2\n", 4, BadReference),
        ("session\nget action:k\nload %1\n", 3, BadReference),
        (
            "session\nstore -\nput action:k %1\nload %2\n",
            4,
            BadReference,
        ),
        ("session\nstore -\nsession\nload %1\n", 4, BadReference),
        // The forms of keys, ids and data.
        ("session\nload action:k\n", 2, BadId),
        ("session\nget Action:k\n", 2, BadId),
        ("session\nget action\n", 2, BadId),
        ("session\nstore x:abc\n", 2, BadData),
        ("session\nstore x:0g\n", 2, BadData),
        ("session\nstore -a\n", 2, BadData),
        // All lines count in a line's number.
        ("# one\n\nsession\n# four\n\nload %1", 6, BadReference),
    ];
    assert_eq!(rt; read_otherwise(rt.alloc(), &cases), None);
}

// What follows 64 sessions.
#[test]
fn sessions_are_64_at_most(rt: HostRuntime) -> Result<(), Fail> {
    let cases: [(&str, Option<ScriptError>); 5] = [
        ("", None),
        ("session\n", Some(ScriptError::Line(65, TooManySessions))),
        ("session now", Some(ScriptError::Line(65, TooManySessions))),
        ("bogus now", Some(ScriptError::Line(65, BadVerb))),
        ("load now %1", Some(ScriptError::Line(65, BadArguments))),
    ];
    for (end, want) in &cases {
        let is = repeated_refusal(rt.alloc(), b"", b"session\n", 64, end.as_bytes())?;
        assert_eq!(rt; is, *want, "at {end:?}");
    }
    Ok(())
}

// What follows 65,536 lines of a session.
#[test]
fn lines_are_65536_at_most(rt: HostRuntime) -> Result<(), Fail> {
    let cases: [(&str, Option<ScriptError>); 4] = [
        ("", None),
        ("load", Some(ScriptError::Line(65_538, TooManyLines))),
        (
            "\n# comment\nload %1\n",
            Some(ScriptError::Line(65_540, TooManyLines)),
        ),
        ("session\nstore -\nload %1\n", None),
    ];
    for (end, want) in &cases {
        let is = repeated_refusal(
            rt.alloc(),
            b"session\nstore -\n",
            b"load %1\n",
            65_535,
            end.as_bytes(),
        )?;
        assert_eq!(rt; is, *want, "at {end:?}");
    }
    Ok(())
}

// What follows 65,535 references.
#[test]
fn references_are_65535_at_most(rt: HostRuntime) -> Result<(), Fail> {
    let cases: [(&str, Option<ScriptError>); 4] = [
        ("", None),
        ("\nload %2", None),
        (" %1", Some(ScriptError::Line(3, TooManyRefs))),
        (" bad", Some(ScriptError::Line(3, TooManyRefs))),
    ];
    for (end, want) in &cases {
        let is = repeated_refusal(
            rt.alloc(),
            b"session\nstore -\nstore t:a",
            b" %1",
            65_535,
            end.as_bytes(),
        )?;
        assert_eq!(rt; is, *want, "at {end:?}");
    }
    let is = repeated_refusal(rt.alloc(), b"session\nact bad bad", b" bad", 65_536, b"")?;
    assert_eq!(rt; is, Some(ScriptError::Line(2, TooManyRefs)));
    Ok(())
}

// 262,144 lines of 64 bytes.
#[test]
fn texts_have_16777216_bytes_at_most(rt: HostRuntime) -> Result<(), Fail> {
    let line = b"# a line of 64 bytes, with its end, that says nothing at all...\n";
    let cases: [(&str, &str, Option<ScriptError>); 3] = [
        ("", "", None),
        ("bogus\n", "", Some(ScriptError::TooLong)),
        ("", "\n", Some(ScriptError::TooLong)),
    ];
    for (front, end, want) in &cases {
        let is = repeated_refusal(rt.alloc(), front.as_bytes(), line, 262_144, end.as_bytes())?;
        assert_eq!(rt; is, *want, "at {front:?} and {end:?}");
    }
    Ok(())
}
