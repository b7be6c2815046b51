// The words of a region that was worked out by hand, a region that is full, and two digests that part at the last
// half byte.
ghost use Rattle.std.specs.Prelude.{◌≡◌, ◌≤◌, ◌∷◌, [], length, IfOk};
ghost use Rattle.cas_model.specs.Contents.{AreLawfulContents};

use cas_model::{Contents, Data, Digest, Full, Object, Pair, Place, Refs, Space};
use region_core::{
    BuildError, Slot, build, content_length, data_word, digest_of_words, digest_words, empty_words,
    head_word, index_at, look, record_digest, split_head,
};
use std::alloc::{AllocError, Global};
use std::test::Fail;

// Contents with one object.
fn one_object(alloc: Global, bytes: &[u8]) -> Result<Contents, AllocError>
    requires { length bytes.now ≤ 16777215 }
    ensures { IfOk result (λ contents. AreLawfulContents contents.objects.items contents.actions.items) }
{
    let object = Object {
        refs: Refs::of(alloc, &[])?,
        data: Data::of(alloc, bytes)?,
    };
    let mut objects = Vec::new(alloc);
    objects.push(object)?;
    Ok(Contents {
        objects,
        actions: Vec::new(alloc),
    })
}

// Contents with one object and two keys that differ in their last bit.
fn two_keys(alloc: Global) -> Result<Contents, AllocError>
    ensures { IfOk result (λ contents. AreLawfulContents contents.objects.items contents.actions.items) }
{
    let object = Object {
        refs: Refs::of(alloc, &[])?,
        data: Data::of(alloc, &[])?,
    };
    let value = Digest::of(object.refs.list(), object.data.list());
    let mut objects = Vec::new(alloc);
    objects.push(object)?;
    let mut actions = Vec::new(alloc);
    actions.push(Pair {
        key: zeros_and(0),
        value,
    })?;
    actions.push(Pair {
        key: zeros_and(1),
        value,
    })?;
    Ok(Contents { objects, actions })
}

// 31 zero bytes and this one.
fn zeros_and(last: u8) -> Digest
    ensures { result ≡ record { bytes = 0 ∷ 0 ∷ 0 ∷ 0 ∷ 0 ∷ 0 ∷ 0 ∷ 0 ∷ 0 ∷ 0 ∷ 0 ∷ 0 ∷ 0 ∷ 0 ∷ 0 ∷ 0 ∷ 0 ∷ 0 ∷ 0 ∷ 0 ∷ 0 ∷ 0 ∷ 0 ∷ 0 ∷ 0 ∷ 0 ∷ 0 ∷ 0 ∷ 0 ∷ 0 ∷ 0 ∷ last ∷ [] } }
{
    Digest {
        bytes: [
            0, 0, 0, 0, 0, 0, 0, 0, 0, 0, 0, 0, 0, 0, 0, 0, 0, 0, 0, 0, 0, 0, 0, 0, 0, 0, 0, 0, 0,
            0, 0, last,
        ],
    }
}

#[test]
fn hello_has_527_words(rt: HostRuntime) -> Result<(), Fail> {
    let contents = one_object(rt.alloc(), b"hello")?;
    let words = build(rt.alloc(), &contents, 4_194_304).expect(&rt, "it fits");
    assert_eq!(rt; words.len(), 527);
    let named = [
        (0, 0x5344_524F_5753_4143),
        (1, 1),
        (2, 4_194_304),
        (3, 527),
        (8 + 0xe4, 2_081),
        (520, 0xe497_73b3_ddae_167d),
        (521, 0x5fd8_e83f_8d02_fb75),
        (522, 0x25c5_4e81_27a1_4767),
        (523, 0xc0ed_be20_6315_b669),
        (524, 525),
        (525, 5),
        (526, 0x6f_6c6c_6568),
    ];
    for (at, word) in words.iter().enumerate() {
        let want = named
            .iter()
            .find(|entry| entry.0 == at)
            .map_or(0, |entry| entry.1);
        assert_eq!(rt; *word, want, "word {at}");
    }
    Ok(())
}

#[test]
fn a_content_that_is_too_long_is_refused(rt: HostRuntime) -> Result<(), Fail> {
    let letters = vec![in rt.alloc(); b'a'; 28_568]?;
    let contents = one_object(rt.alloc(), letters.as_slice())?;
    let refused = build(rt.alloc(), &contents, 4_096);
    assert!(rt;
        matches!(
            &refused,
            Err(BuildError::Full(Full {
                at: 525,
                asked: 3_572,
                size: 4_096
            }))
        )
    );
    let letters = vec![in rt.alloc(); b'a'; 28_560]?;
    let contents = one_object(rt.alloc(), letters.as_slice())?;
    let words = build(rt.alloc(), &contents, 4_096).expect(&rt, "it fits");
    assert_eq!(rt; words.len(), 4_096);
    assert_eq!(rt; words[3], 4_096);
    Ok(())
}

#[test]
fn digests_that_part_at_the_last_half_byte_need_62_subtries(rt: HostRuntime) -> Result<(), Fail> {
    let contents = two_keys(rt.alloc())?;
    let words = build(rt.alloc(), &contents, 4_096).expect(&rt, "it fits");
    // the object's record and content, and two records with the subtries of the second
    assert_eq!(rt; words.len(), 520 + 5 + 1 + 5 + 5 + 62 * 16);
    Ok(())
}

#[test]
fn words_are_those_of_the_layout(rt: HostRuntime) -> Result<(), Fail> {
    assert_eq!(rt; Slot::of(0), Some(Slot::Empty));
    assert_eq!(rt; Slot::of(2_081), Some(Slot::Record(Place { at: 520 })));
    assert_eq!(rt; Slot::of(2_082), Some(Slot::Subtrie(Place { at: 520 })));
    assert_eq!(rt; Slot::of(3), None);
    assert_eq!(rt; Slot::of(4), None);
    assert_eq!(rt; Slot::Subtrie(Place { at: 520 }).word(), 2_082);
    let digest = Digest::of(&[], b"hello");
    assert_eq!(rt; index_at(&digest, 0), 0xe4);
    assert_eq!(rt; index_at(&digest, 1), 9);
    assert_eq!(rt; index_at(&digest, 2), 7);
    assert_eq!(rt; index_at(&digest, 62), 9);
    assert_eq!(rt; digest_of_words(digest_words(&digest)), digest);
    assert_eq!(rt; content_length(2, 9), 5);
    assert_eq!(rt; split_head(head_word(2, 9)), (2, 9));
    assert_eq!(rt; data_word(b"hello", 0), 0x6f_6c6c_6568);
    Ok(())
}

#[test]
fn a_built_record_is_found(rt: HostRuntime) -> Result<(), Fail> {
    let contents = one_object(rt.alloc(), b"hello")?;
    let words = build(rt.alloc(), &contents, 4_096).expect(&rt, "it fits");
    let digest = Digest::of(&[], b"hello");
    assert_eq!(rt;
        look(&words, Space::Objects, &digest),
        Some(Place { at: 520 })
    );
    assert_eq!(rt; look(&words, Space::Actions, &digest), None);
    assert_eq!(rt; look(&words, Space::Objects, &zeros_and(0)), None);
    assert!(rt; words.len() == 527);
    assert_eq!(rt; record_digest(&words, 520), digest);
    let empty = empty_words(rt.alloc(), 4_096)?;
    assert_eq!(rt; empty.len(), 520);
    Ok(())
}
