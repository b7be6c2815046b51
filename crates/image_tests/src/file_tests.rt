// The images of an empty region and of one object, byte by byte, and what is refused of them.
ghost use Rattle.std.specs.Prelude.{◌≡◌, ◌≤◌, length, IfOk};
ghost use Rattle.cas_model.specs.Contents.{AreLawfulContents};

use cas_model::{Contents, Data, Digest, Object, Refs};
use frozen_store::Frozen;
use image_file::{ImageError, image_of, read_image};
use region_check::{Flaw, FlawKind};
use sha2::{Digest as _, Sha256};
use std::alloc::{AllocError, Global};
use std::test::Fail;

/// The default size of a region, in words.
const SIZE: u64 = 4_194_304;

// Contents with the object `hello`.
fn hello(alloc: Global) -> Result<Contents, AllocError>
    ensures { IfOk result (λ contents. AreLawfulContents contents.objects.items contents.actions.items) }
{
    let object = Object {
        refs: Refs::of(alloc, &[])?,
        data: Data::of(alloc, b"hello")?,
    };
    Ok(Contents {
        objects: Vec::from_array(alloc, [object])?,
        actions: Vec::new(alloc),
    })
}

// The image of a region with the object `hello`.
fn hello_image(rt: &HostRuntime) -> Result<Vec<u8>, Fail> {
    let contents = hello(rt.alloc())?;
    match Frozen::of_contents(rt.alloc(), &contents, SIZE) {
        Ok(frozen) => Ok(image_of(rt.alloc(), &frozen)?),
        Err(_) => Ok(Vec::new(rt.alloc())),
    }
}

// The refusal of bytes, where they are refused.
fn refusal(rt: &HostRuntime, bytes: &[u8]) -> Option<ImageError> {
    read_image(rt.alloc(), bytes).err()
}

// The image of so many words, with these differing from 0.
fn image_with(rt: &HostRuntime, count: usize, words: &[(usize, u64)]) -> Result<Vec<u8>, Fail> {
    let mut all = Vec::new(rt.alloc());
    all.resize(count, 0u64)?;
    for (at, word) in words {
        if let Some(place) = all.get_mut(*at) {
            *place = *word;
        }
    }
    let mut bytes = Vec::new(rt.alloc());
    for word in &all {
        bytes.extend_from_slice(&word.to_le_bytes())?;
    }
    let sum = Sha256::digest(bytes.as_slice());
    bytes.extend_from_slice(&sum)?;
    Ok(bytes)
}

const MAGIC: (usize, u64) = (0, 0x5344_524f_5753_4143);

#[test]
fn the_image_of_hello_is_read_back(rt: HostRuntime) -> Result<(), Fail> {
    let bytes = hello_image(&rt)?;
    assert_eq!(rt; bytes.len(), 4_248);
    let words = [
        MAGIC,
        (1, 1),
        (2, SIZE),
        (3, 527),
        (236, 2_081),
        (520, 0xe497_73b3_ddae_167d),
        (521, 0x5fd8_e83f_8d02_fb75),
        (522, 0x25c5_4e81_27a1_4767),
        (523, 0xc0ed_be20_6315_b669),
        (524, 525),
        (525, 5),
        (526, 0x6f_6c6c_6568),
    ];
    let wanted = image_with(&rt, 527, &words)?;
    assert!(rt; bytes.as_slice() == wanted.as_slice());
    match read_image(rt.alloc(), bytes.as_slice()) {
        Ok(frozen) => {
            let again = image_of(rt.alloc(), &frozen)?;
            assert!(rt; again.as_slice() == bytes.as_slice());
        }
        Err(_) => assert!(rt; false),
    }
    Ok(())
}

#[test]
fn the_image_of_an_empty_region(rt: HostRuntime) -> Result<(), Fail> {
    let frozen = Frozen::empty(rt.alloc(), SIZE)?;
    let bytes = image_of(rt.alloc(), &frozen)?;
    let wanted = image_with(&rt, 520, &[MAGIC, (1, 1), (2, SIZE), (3, 520)])?;
    assert_eq!(rt; bytes.len(), 4_192);
    assert!(rt; bytes.as_slice() == wanted.as_slice());
    assert!(rt; read_image(rt.alloc(), bytes.as_slice()).is_ok());
    Ok(())
}

#[test]
fn each_prefix_is_refused(rt: HostRuntime) -> Result<(), Fail> {
    let bytes = hello_image(&rt)?;
    for length in 0..bytes.len() {
        let refused = refusal(&rt, &bytes[..length]);
        if length < 4_192 {
            assert_eq!(rt; refused, Some(ImageError::Short));
        } else if length % 8 != 0 {
            assert_eq!(rt; refused, Some(ImageError::Ragged));
        } else {
            assert!(rt; matches!(refused, Some(ImageError::Sum { .. })));
        }
    }
    Ok(())
}

// Flips bits of a byte.
fn flip(bytes: &mut [u8], at: usize, bits: u8) {
    if let Some(byte) = bytes.get_mut(at) {
        *byte ^= bits;
    }
}

#[test]
fn each_flipped_bit_is_refused(rt: HostRuntime) -> Result<(), Fail> {
    let mut bytes = hello_image(&rt)?;
    let length = bytes.len();
    for at in 0..length {
        if at >= 64 && at + 64 < length {
            continue;
        }
        for bit in [1, 2, 4, 8, 16, 32, 64, 128] {
            flip(bytes.as_mut_slice(), at, bit);
            let refused = refusal(&rt, bytes.as_slice());
            assert!(rt; matches!(refused, Some(ImageError::Sum { .. })));
            flip(bytes.as_mut_slice(), at, bit);
        }
    }
    Ok(())
}

#[test]
fn words_that_stand_for_nothing_are_refused(rt: HostRuntime) -> Result<(), Fail> {
    let version = image_with(&rt, 520, &[MAGIC, (1, 7), (2, SIZE), (3, 520)])?;
    assert_eq!(rt;
        refusal(&rt, version.as_slice()),
        Some(ImageError::Version(7))
    );
    let shared = [MAGIC, (1, 1), (2, 4_096), (3, 530), (8, 2_081), (9, 2_089)];
    let overlap = Flaw {
        place: 522,
        kind: FlawKind::Overlap,
    };
    let image = image_with(&rt, 530, &shared)?;
    assert_eq!(rt;
        refusal(&rt, image.as_slice()),
        Some(ImageError::Flaw(overlap))
    );
    let short = [MAGIC, (1, 1), (2, 4_096), (3, 529), (8, 2_081), (9, 2_089)];
    let past = Flaw {
        place: 529,
        kind: FlawKind::PastCounter,
    };
    let image = image_with(&rt, 530, &short)?;
    assert_eq!(rt;
        refusal(&rt, image.as_slice()),
        Some(ImageError::Flaw(past))
    );
    Ok(())
}
