// Outside vectors: digests that another implementation of SHA-256 computed, texts of ids, and words of contents.
use cas_model::{
    Data, Digest, Id, IdError, Object, Refs, Words, content_length, data_word, head_word,
    split_head,
};
use std::test::Fail;

#[test]
fn digests_are_those_of_canonical_bytes(rt: HostRuntime) -> Result<(), Fail> {
    let empty = Digest::of(&[], b"");
    let hello = Digest::of(&[], b"hello");
    let node = Digest::of(&[empty, hello], b"x");
    let key = Digest::of_key(b"abc");
    let cases = [
        (
            empty,
            "374708fff7719dd5979ec875d56cd2286f6d3cf7ec317a3b25632aab28ec37bb",
        ),
        (
            hello,
            "e49773b3ddae167d5fd8e83f8d02fb7525c54e8127a14767c0edbe206315b669",
        ),
        (
            node,
            "d396e914569edb56f4f75b13d04b4e6cde2fe7aea9fc0046a2a182f899719555",
        ),
        (
            key,
            "ba7816bf8f01cfea414140de5dae2223b00361a396177a9cb410ff61f20015ad",
        ),
    ];
    for (digest, digits) in cases {
        let text = Id { digest }.text(rt.alloc())?;
        let want = format!(in rt.alloc(); "llvmcas://{digits}")?;
        assert_eq!(rt; text.as_slice(), want.as_bytes());
        assert_eq!(rt; Id::parse(text.as_slice()), Ok(digest));
    }
    Ok(())
}

#[test]
fn ids_are_refused_for_the_first_reason(rt: HostRuntime) -> Result<(), Fail> {
    let id = Id {
        digest: Digest::of(&[], b"hello"),
    };
    let text = id.text(rt.alloc())?;
    let mut upper = text.clone()?;
    upper.as_mut_slice()[10..].make_ascii_uppercase();
    assert_eq!(rt; Id::parse(upper.as_slice()), Ok(id.digest));
    assert_eq!(rt; Id::parse(b""), Err(IdError::BadPrefix));
    assert_eq!(rt; Id::parse(b"llvmcas:/"), Err(IdError::BadPrefix));
    assert_eq!(rt; Id::parse(b"LLVMCAS://"), Err(IdError::BadPrefix));
    assert_eq!(rt; Id::parse(b"llvmcas://"), Err(IdError::BadLength));
    assert_eq!(rt; Id::parse(b"llvmcas://12"), Err(IdError::BadLength));
    assert_eq!(rt; Id::parse(b"llvmcas://xyz"), Err(IdError::BadLength));
    for index in [0, 1, 31, 62, 63] {
        let mut wrong = text.clone()?;
        assert!(rt; 10 + index < wrong.len());
        wrong[10 + index] = b'g';
        assert_eq!(rt;
            Id::parse(wrong.as_slice()),
            Err(IdError::BadDigit(index as u32))
        );
    }
    Ok(())
}

#[test]
fn a_key_is_a_text_or_an_id(rt: HostRuntime) -> Result<(), Fail> {
    let id = Id {
        digest: Digest::of(&[], b"hello"),
    };
    let text = id.text(rt.alloc())?;
    assert_eq!(rt; Id::parse_key(text.as_slice()), Ok(id.digest));
    assert_eq!(rt; Id::parse_key(b"action:abc"), Ok(Digest::of_key(b"abc")));
    assert_eq!(rt; Id::parse_key(b"action:"), Ok(Digest::of_key(b"")));
    assert_eq!(rt; Id::parse_key(b"action"), Err(IdError::BadPrefix));
    assert_eq!(rt; Id::parse_key(b"llvmcas://12"), Err(IdError::BadLength));
    Ok(())
}

#[test]
fn objects_keep_their_lists(rt: HostRuntime) -> Result<(), Fail> {
    let refs = [Digest::of(&[], b"a"), Digest::of(&[], b"b")];
    let object = Object {
        refs: Refs::of(rt.alloc(), &refs)?,
        data: Data::of(rt.alloc(), b"some data")?,
    };
    let copy = object.copy(rt.alloc())?;
    assert_eq!(rt; copy.refs.list(), refs.as_slice());
    assert_eq!(rt; copy.data.list(), b"some data".as_slice());
    let words = Words::of([1, 2, 3].to_vec(rt.alloc())?);
    assert_eq!(rt; words.list(), [1, 2, 3].as_slice());
    Ok(())
}

#[test]
fn contents_have_their_words(rt: HostRuntime) {
    assert_eq!(rt; content_length(0, 0), 1);
    assert_eq!(rt; content_length(2, 9), 5);
    assert_eq!(rt; content_length(65_535, 16_777_215), 2_162_688);
    assert_eq!(rt; head_word(2, 9), 0x2_0000_0009);
    assert_eq!(rt; split_head(0x2_0000_0009), (2, 9));
    assert_eq!(rt; data_word(b"hello", 0), 0x6f6c6c6568);
    assert_eq!(rt; data_word(b"hello, world", 0), 0x77202c6f6c6c6568);
    assert_eq!(rt; data_word(b"hello, world", 1), 0x646c726f);
}
