// The words of `hello` by hand, an empty region, contents that are read back, a content that is too long, and a closed
// region as an upstream.
ghost use Rattle.std.specs.Prelude.{◌≡◌, ◌≤◌, length, IfOk};
ghost use Rattle.cas_model.specs.Contents.{AreLawfulContents};
ghost use Rattle.cas_model.specs.Primary.{primary};

use cas_model::{Contents, Data, Digest, Full, Object, Pair, Place, Refs, Space, Upstream};
use frozen_store::{Counts, Frozen};
use region_core::BuildError;
use std::alloc::{AllocError, Global};
use std::test::Fail;

const NOTHING: Counts = Counts {
    objects: 0,
    actions: 0,
};

fn object(alloc: Global, bytes: &[u8], refs: &[Digest]) -> Result<Object, AllocError>
    ensures bytes { IfOk result (λ object. object.data ≡ bytes.now) }
    ensures refs { IfOk result (λ object. object.refs ≡ refs.now) }
{
    Ok(Object {
        refs: Refs::of(alloc, refs)?,
        data: Data::of(alloc, bytes)?,
    })
}

// Contents with one object.
fn one_object(alloc: Global, bytes: &[u8]) -> Result<Contents, AllocError>
    requires { length bytes.now ≤ 16777215 }
    ensures { IfOk result (λ contents. AreLawfulContents contents.objects.items contents.actions.items) }
{
    let mut objects = Vec::new(alloc);
    objects.push(object(alloc, bytes, &[])?)?;
    Ok(Contents {
        objects,
        actions: Vec::new(alloc),
    })
}

// Contents with the objects `a` and `b`, a node that names both and `a` again, and a key whose value is the node. They
// are empty where two digests are alike.
fn node_and_key(alloc: Global, key: Digest) -> Result<Contents, AllocError>
    ensures { IfOk result (λ contents. AreLawfulContents contents.objects.items contents.actions.items) }
{
    let a = Digest::of(&[], b"a");
    let b = Digest::of(&[], b"b");
    let node = Digest::of(&[a, b, a], b"ninebytes");
    if a == b || a == node || b == node {
        return Ok(Contents {
            objects: Vec::new(alloc),
            actions: Vec::new(alloc),
        });
    }
    let one = object(alloc, b"a", &[])?;
    let two = object(alloc, b"b", &[])?;
    let three = object(alloc, b"ninebytes", &[a, b, a])?;
    Ok(Contents {
        objects: Vec::from_array(alloc, [one, two, three])?,
        actions: Vec::from_array(alloc, [Pair { key, value: node }])?,
    })
}

fn are_alike(one: &Contents, two: &Contents) -> bool {
    one.actions.as_slice() == two.actions.as_slice()
        && one.objects.len() == two.objects.len()
        && one
            .objects
            .iter()
            .zip(two.objects.iter())
            .all(|pair| is_same(pair.0, pair.1))
}

fn is_same(one: &Object, two: &Object) -> bool {
    one.refs.list() == two.refs.list() && one.data.list() == two.data.list()
}

#[test]
fn hello_has_527_words(rt: HostRuntime) -> Result<(), Fail> {
    let contents = one_object(rt.alloc(), b"hello")?;
    let frozen = Frozen::of_contents(rt.alloc(), &contents, 4_194_304).expect(&rt, "it fits");
    assert_eq!(rt; frozen.used(), 527);
    assert_eq!(rt; frozen.size(), 4_194_304);
    let named = [
        (0, 0x5344_524F_5753_4143),
        (1, 1),
        (2, 4_194_304),
        (3, 527),
        (8 + 0xe4, 2_081),
        (520, 0xe497_73b3_ddae_167d),
        (521, 0x5fd8_e83f_8d02_fb75),
        (522, 0x25c5_4e81_27a1_4767),
        (523, 0xc0ed_be20_6315_b669),
        (524, 525),
        (525, 5),
        (526, 0x6f_6c6c_6568),
    ];
    for (at, word) in frozen.words().iter().enumerate() {
        let want = named
            .iter()
            .find(|entry| entry.0 == at)
            .map_or(0, |entry| entry.1);
        assert_eq!(rt; *word, want, "word {at}");
    }
    frozen.seen();
    Ok(())
}

#[test]
fn an_empty_region_has_520_words(rt: HostRuntime) -> Result<(), Fail> {
    let frozen = Frozen::empty(rt.alloc(), 4_096)?;
    assert_eq!(rt; frozen.used(), 520);
    assert_eq!(rt; frozen.size(), 4_096);
    assert_eq!(rt; frozen.counts(), NOTHING);
    let hello = Digest::of(&[], b"hello");
    assert_eq!(rt; frozen.look(Space::Objects, &hello), None);
    assert_eq!(rt; frozen.content_place(&hello), None);
    assert_eq!(rt; frozen.action(&hello), None);
    assert!(rt; frozen.object(rt.alloc(), &hello)?.is_none());
    let contents = frozen.contents(rt.alloc())?;
    assert!(rt; contents.objects.is_empty() && contents.actions.is_empty());
    Ok(())
}

#[test]
fn contents_are_read_back(rt: HostRuntime) -> Result<(), Fail> {
    let key = Digest::of_key(b"k");
    let contents = node_and_key(rt.alloc(), key)?;
    let frozen = Frozen::of_contents(rt.alloc(), &contents, 4_096).expect(&rt, "it fits");
    let counts = Counts {
        objects: 3,
        actions: 1,
    };
    assert_eq!(rt; frozen.counts(), counts);
    for object in contents.objects.iter() {
        let digest = Digest::of(object.refs.list(), object.data.list());
        match frozen.object(rt.alloc(), &digest)? {
            Some(there) => assert!(rt; is_same(&there, object)),
            None => assert!(rt; false),
        }
        assert!(rt; frozen.content_place(&digest).is_some());
        assert_eq!(rt; frozen.action(&digest), None);
    }
    let a = Digest::of(&[], b"a");
    // the first object has its record at the start of the arena, and its content behind it
    assert_eq!(rt; frozen.look(Space::Objects, &a), Some(Place { at: 520 }));
    assert_eq!(rt; frozen.content_place(&a), Some(Place { at: 525 }));
    let b = Digest::of(&[], b"b");
    let node = Digest::of(&[a, b, a], b"ninebytes");
    assert_eq!(rt; frozen.action(&key), Some(node));
    assert!(rt; frozen.object(rt.alloc(), &key)?.is_none());
    assert!(rt; are_alike(&frozen.contents(rt.alloc())?, &contents));
    // a closed region of these words is the same again
    let words = frozen.words().to_vec(rt.alloc())?;
    assert_eq!(rt; words.len(), 520 + 7 + 7 + 11 + 5);
    if words.len() > 544 {
        assert_eq!(rt; frozen.word(544), words[544]);
    }
    Ok(())
}

#[test]
fn a_content_that_is_too_long_is_refused(rt: HostRuntime) -> Result<(), Fail> {
    let letters = vec![in rt.alloc(); b'a'; 28_568]?;
    let contents = one_object(rt.alloc(), letters.as_slice())?;
    let refused = Frozen::of_contents(rt.alloc(), &contents, 4_096);
    assert!(rt;
        matches!(
            &refused,
            Err(BuildError::Full(Full {
                at: 525,
                asked: 3_572,
                size: 4_096
            }))
        )
    );
    Ok(())
}

// The region of this size that holds the same. It is never full.
fn build_again(alloc: Global, frozen: &Frozen) -> Result<Frozen, AllocError>
    ensures { IfOk result (λ again. primary again.tables ≡ primary frozen.now.tables) }
{
    frozen.seen();
    let contents = frozen.contents(alloc)?;
    match Frozen::of_contents(alloc, &contents, frozen.size()) {
        Ok(again) => Ok(again),
        Err(BuildError::Memory) => Err(AllocError),
        Err(BuildError::Full(_)) => unreachable!(),
    }
}

// The upstream of a store above.
fn over<U: Upstream>(up: &U) -> &U
    ensures { U.state result.now ≡ U.state up.now }
{
    up
}

// A closed region as an upstream: its state is that of its tables.
fn over_frozen(frozen: &Frozen) -> &Frozen
    ensures { primary result.now.tables ≡ primary frozen.now.tables }
{
    over(frozen)
}

#[test]
fn a_closed_region_is_an_upstream(rt: HostRuntime) -> Result<(), Fail> {
    let contents = one_object(rt.alloc(), b"hello")?;
    let frozen = Frozen::of_contents(rt.alloc(), &contents, 4_096).expect(&rt, "it fits");
    let hello = Digest::of(&[], b"hello");
    assert_eq!(rt;
        over_frozen(&frozen).content_place(&hello),
        Some(Place { at: 525 })
    );
    Ok(())
}

#[test]
fn a_closed_region_is_built_again(rt: HostRuntime) -> Result<(), Fail> {
    let contents = node_and_key(rt.alloc(), Digest::of_key(b"k"))?;
    let frozen = Frozen::of_contents(rt.alloc(), &contents, 4_096).expect(&rt, "it fits");
    let again = build_again(rt.alloc(), &frozen)?;
    assert_eq!(rt; again.words(), frozen.words());
    Ok(())
}
