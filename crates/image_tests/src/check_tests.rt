// Words that were worked out by hand from the layout, with one thing changed in each: the flaw that is told, by name and
// place; and lawful words with waste in them.
ghost use Rattle.std.specs.Prelude.{◌≡◌, ◌≤◌, length};

use cas_model::{Digest, Space};
use frozen_store::Counts;
use region_check::{CheckError, Flaw, FlawKind, check};
use region_core::digest_words;
use std::alloc::{AllocError, Global};
use std::test::Fail;
use test_fixtures::{hashed, hashed_key};

/// The slot of `hello` in the root of the objects' trie: its digest begins with 0xe4.
const SLOT: usize = 8 + 0xe4;

// The words of a region of 4,096 words in which nothing is stored.
fn empty(alloc: Global) -> Result<Vec<u64>, AllocError> {
    let mut words = Vec::from_array(alloc, [0x5344_524F_5753_4143, 1, 4_096, 520])?;
    words.resize(520, 0)?;
    Ok(words)
}

fn set(words: &mut Vec<u64>, at: usize, word: u64) {
    if let Some(place) = words.get_mut(at) {
        *place = word;
    }
}

// The counter is the number of words.
fn finish(words: &mut Vec<u64>) {
    let used = words.len() as u64;
    set(words, 3, used);
}

fn push_all(words: &mut Vec<u64>, block: &[u64]) -> Result<(), AllocError> {
    words.extend_from_slice(block)
}

// The word of a slot that names a record.
fn record_word(place: u64) -> u64 {
    place.wrapping_mul(4).wrapping_add(1)
}

// Adds a record, and lets the slot of the root name it to which its digest leads.
fn add_record(
    words: &mut Vec<u64>,
    space: Space,
    digest: &Digest,
    cell: u64,
) -> Result<(), AllocError> {
    let place = words.len() as u64;
    push_all(words, &digest_words(digest))?;
    push_all(words, &[cell])?;
    let root = match space {
        Space::Objects => 8,
        Space::Actions => 264,
    };
    set(words, root + digest.bytes[0] as usize, record_word(place));
    Ok(())
}

// The words of a region with the object of the data `hello`.
fn hello(alloc: Global) -> Result<Vec<u64>, AllocError> {
    let mut words = empty(alloc)?;
    add_record(&mut words, Space::Objects, &hashed(&[], b"hello"), 525)?;
    push_all(&mut words, &[5, 0x6f_6c6c_6568])?;
    finish(&mut words);
    Ok(words)
}

// The words of a region with the object without data at 520, a node that refers to it at 526, and a key of the node at
// 533.
fn node_and_key(alloc: Global) -> Result<Vec<u64>, AllocError> {
    let mut words = empty(alloc)?;
    let leaf = hashed(&[], b"");
    add_record(&mut words, Space::Objects, &leaf, 525)?;
    push_all(&mut words, &[0])?;
    add_record(&mut words, Space::Objects, &hashed(&[leaf], b""), 531)?;
    push_all(&mut words, &[1 << 32, 520])?;
    add_record(&mut words, Space::Actions, &hashed_key(b"k"), 526)?;
    finish(&mut words);
    Ok(words)
}

// The word of a slot that names a subtrie.
fn subtrie_word(place: u64) -> u64 {
    place.wrapping_mul(4).wrapping_add(2)
}

// A chain of this many tables, one below the other, from the first slot of the objects' root on.
fn chain(alloc: Global, tables: u32) -> Result<Vec<u64>, AllocError> {
    let mut words = empty(alloc)?;
    let mut slot = 8;
    for _ in 0..tables {
        let place = words.len();
        push_all(&mut words, &[0; 16])?;
        set(&mut words, slot, subtrie_word(place as u64));
        slot = place;
    }
    finish(&mut words);
    Ok(words)
}

// The flaw of words, and None where they are lawful.
fn flaw_of(alloc: Global, words: Vec<u64>) -> Result<Option<Flaw>, AllocError> {
    match check(alloc, words) {
        Ok(_) => Ok(None),
        Err(CheckError::Flaw(flaw)) => Ok(Some(flaw)),
        Err(CheckError::Memory) => Err(AllocError),
    }
}

// The flaw of these words with some of them changed.
fn flaw_with(
    alloc: Global,
    mut words: Vec<u64>,
    edits: &[(usize, u64)],
) -> Result<Option<Flaw>, AllocError> {
    for edit in edits {
        set(&mut words, edit.0, edit.1);
    }
    flaw_of(alloc, words)
}

fn flaw(place: u64, kind: FlawKind) -> Option<Flaw> {
    Some(Flaw { place, kind })
}

#[test]
fn one_word_of_hello_is_changed(rt: HostRuntime) -> Result<(), Fail> {
    let digest = hashed(&[], b"hello");
    let other = FlawKind::DigestDiffers {
        kept: digest,
        found: hashed(&[], b"jello"),
    };
    let cases = [
        ((0, 0), flaw(0, FlawKind::Header)),
        ((1, 7), flaw(1, FlawKind::Header)),
        ((2, 4_095), flaw(2, FlawKind::Header)),
        ((3, 5_000), flaw(3, FlawKind::Header)),
        ((4, 1), flaw(4, FlawKind::Header)),
        ((7, 1), flaw(7, FlawKind::Header)),
        ((3, 526), flaw(526, FlawKind::PastCounter)),
        ((SLOT, 3), flaw(SLOT as u64, FlawKind::Slot)),
        ((SLOT, 2_109), flaw(SLOT as u64, FlawKind::Range)),
        ((519, 4 * 512 + 2), flaw(519, FlawKind::Range)),
        ((524, 527), flaw(524, FlawKind::Range)),
        ((525, 16_777_216), flaw(525, FlawKind::Length)),
        ((525, 9), flaw(525, FlawKind::Length)),
        ((9, 2_081), flaw(520, FlawKind::Overlap)),
        (
            (520, 0x6497_73b3_ddae_167d),
            flaw(SLOT as u64, FlawKind::Path),
        ),
        ((526, 0x0100_006f_6c6c_6568), flaw(526, FlawKind::Padding)),
        ((526, 0x6f_6c6c_656a), flaw(520, other)),
        ((524, 0), None),
    ];
    for (edit, want) in cases {
        let got = flaw_with(rt.alloc(), hello(rt.alloc())?, &[edit])?;
        assert_eq!(rt; got, want, "word {}", edit.0);
    }
    let mut words = hello(rt.alloc())?;
    words.push(0)?;
    assert_eq!(rt;
        flaw_of(rt.alloc(), words)?,
        flaw(527, FlawKind::PastCounter)
    );
    Ok(())
}

#[test]
fn one_word_of_a_node_and_its_key_is_changed(rt: HostRuntime) -> Result<(), Fail> {
    let cases = [
        ((532, 0), flaw(532, FlawKind::Reference)),
        ((532, 526), flaw(532, FlawKind::Order)),
        ((530, 525), flaw(525, FlawKind::Overlap)),
        ((537, 8), flaw(537, FlawKind::ActionValue)),
        ((537, 533), flaw(537, FlawKind::ActionValue)),
        ((537, 0), None),
        ((537, 520), None),
    ];
    for (edit, want) in cases {
        let got = flaw_with(rt.alloc(), node_and_key(rt.alloc())?, &[edit])?;
        assert_eq!(rt; got, want, "word {}", edit.0);
    }
    // Where no object is present, a key has no value.
    let edits = [(524, 0), (530, 0)];
    let got = flaw_with(rt.alloc(), node_and_key(rt.alloc())?, &edits)?;
    assert_eq!(rt; got, flaw(537, FlawKind::ActionValue));
    Ok(())
}

#[test]
fn tables_are_changed(rt: HostRuntime) -> Result<(), Fail> {
    // Two records with common words.
    let mut words = empty(rt.alloc())?;
    words.resize(530, 0)?;
    finish(&mut words);
    let edits = [(8, 2_081), (9, 2_089)];
    let got = flaw_with(rt.alloc(), words, &edits)?;
    assert_eq!(rt; got, flaw(522, FlawKind::Overlap));
    let chained = [
        // Two slots name one table.
        (1, (9, 2_082), flaw(520, FlawKind::Overlap)),
        // A table names itself, and its upper one.
        (1, (523, 2_082), flaw(520, FlawKind::Overlap)),
        (2, (540, 2_082), flaw(520, FlawKind::Overlap)),
        // Tables at each level, and one more below the last level.
        (62, (4, 0), None),
        (63, (4, 0), flaw(520 + 61 * 16, FlawKind::Path)),
    ];
    for (tables, edit, want) in chained {
        let got = flaw_with(rt.alloc(), chain(rt.alloc(), tables)?, &[edit])?;
        assert_eq!(rt; got, want, "{tables} tables");
    }
    // Two tables share a slot, which is one naming: the tables overlap, and not the record that it names.
    let mut words = empty(rt.alloc())?;
    words.resize(546, 0)?;
    finish(&mut words);
    let edits = [(8, 4 * 525 + 2), (9, 4 * 530 + 2), (532, 2_081)];
    let got = flaw_with(rt.alloc(), words, &edits)?;
    assert_eq!(rt; got, flaw(530, FlawKind::Overlap));
    Ok(())
}

#[test]
fn few_words_have_no_header(rt: HostRuntime) -> Result<(), Fail> {
    for count in [0, 7, 519] {
        let mut words = empty(rt.alloc())?;
        words.truncate(count);
        assert_eq!(rt;
            flaw_of(rt.alloc(), words)?,
            flaw(count as u64, FlawKind::Header)
        );
    }
    let zeros = vec![in rt.alloc(); 0; 520]?;
    assert_eq!(rt; flaw_of(rt.alloc(), zeros)?, flaw(0, FlawKind::Header));
    Ok(())
}

#[test]
fn lawful_words_are_a_closed_region(rt: HostRuntime) -> Result<(), Fail> {
    let counts = Counts {
        objects: 2,
        actions: 1,
    };
    match check(rt.alloc(), node_and_key(rt.alloc())?) {
        Ok(frozen) => {
            assert_eq!(rt; frozen.used(), 538);
            assert_eq!(rt; frozen.counts(), counts);
        }
        Err(_) => assert!(rt; false),
    }
    // Words in no block may hold anything.
    let mut waste = empty(rt.alloc())?;
    push_all(&mut waste, &[7; 40])?;
    finish(&mut waste);
    match check(rt.alloc(), waste) {
        Ok(frozen) => assert_eq!(rt; frozen.used(), 560),
        Err(_) => assert!(rt; false),
    }
    Ok(())
}
