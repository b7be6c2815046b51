// The closed region of an image.
ghost use Rattle.std.specs.Prelude.{◌≡◌, ◌/◌, length, IfOk, IfErr, MatchResult};
ghost use Rattle.cas_model.specs.Content.{words_from};
ghost use Rattle.image_file.specs.Image.{image_bytes, IsWhole, RefusesImage, RefusesSum};

use crate::ImageError;
use cas_model::{Digest, data_word};
use frozen_store::Frozen;
use region_check::{CheckError, check};
use sha2::{Digest as _, Sha256};
use std::alloc::{AllocError, Global};

/// How many bytes the image of the largest region has.
const LONGEST: usize = 536_870_944;

/// How many bytes the image of an empty region has.
const SHORTEST: usize = 4_192;

/// How many bytes the sum has.
const SUM: usize = 32;

/// The closed region that these bytes are the image of, or the first reason why they are none.
pub fn read_image(alloc: Global, bytes: &[u8]) -> Result<Frozen, ImageError>
    ensures read { IfOk result (λ frozen. bytes.now ≡ image_bytes frozen.words) }
    ensures refused { IfErr result (RefusesImage bytes.now) }
{
    let body = body_of(bytes)?;
    let words = words_of(alloc, body)?;
    let version = words[1];
    if version != 1 {
        return Err(ImageError::Version(version));
    }
    match check(alloc, words) {
        Ok(frozen) => Ok(frozen),
        Err(CheckError::Flaw(flaw)) => Err(ImageError::Flaw(flaw)),
        Err(CheckError::Memory) => Err(ImageError::Memory),
    }
}

// The bytes before the sum, where there are as many as an image has and the sum is theirs.
fn body_of(bytes: &[u8]) -> Result<&[u8], ImageError>
    ensures { MatchResult result (λ body. IsWhole bytes.now body.now) (λ error. RefusesSum bytes.now error) }
{
    if bytes.len() > LONGEST {
        return Err(ImageError::Long);
    }
    if bytes.len() < SHORTEST {
        return Err(ImageError::Short);
    }
    if bytes.len() % 8 != 0 {
        return Err(ImageError::Ragged);
    }
    let (body, sum) = bytes.split_at(bytes.len() - SUM);
    let found = Sha256::digest(body);
    if sum != found.as_slice() {
        return Err(ImageError::Sum {
            kept: digest_in(sum),
            found: Digest { bytes: found },
        });
    }
    Ok(body)
}

// The digest that these 32 bytes are.
fn digest_in(bytes: &[u8]) -> Digest
    requires { length bytes.now ≡ 32 }
    ensures { result.bytes ≡ bytes.now }
{
    let mut digest = Digest { bytes: [0; 32] };
    digest.bytes.copy_from_slice(bytes);
    digest
}

// The words that bytes are, eight bytes a word, the low one first.
fn words_of(alloc: Global, bytes: &[u8]) -> Result<Vec<u64>, AllocError>
    ensures { IfOk result (λ words. words.items ≡ words_from (length bytes.now / 8) bytes.now) }
{
    let count = bytes.len() / 8;
    let mut words = Vec::with_capacity(alloc, count)?;
    for index in 0..count {
        words.push(data_word(bytes, index as u64))?;
    }
    Ok(words)
}
