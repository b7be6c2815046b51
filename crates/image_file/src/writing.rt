// The image of a closed region.
ghost use Rattle.std.specs.Prelude.{◌≡◌, ◌≤◌, length, IfOk};
ghost use Rattle.cas_model.specs.Content.{bytes_of};
ghost use Rattle.image_file.specs.Image.{image_bytes};

use byteorder::{ByteOrder, LittleEndian};
use frozen_store::Frozen;
use sha2::{Digest as _, Sha256};
use std::alloc::{AllocError, Global};

/// How many bytes the sum has.
const SUM: usize = 32;

/// The image of a closed region: each word as eight bytes, the low one first, and the SHA-256 of these bytes.
pub fn image_of(alloc: Global, frozen: &Frozen) -> Result<Vec<u8>, AllocError>
    ensures { IfOk result (λ bytes. bytes.items ≡ image_bytes frozen.now.words) }
{
    frozen.seen();
    let mut bytes = bytes_of(alloc, frozen.words())?;
    let sum = Sha256::digest(bytes.as_slice());
    bytes.extend_from_slice(&sum)?;
    Ok(bytes)
}

// The bytes of words, with room for the sum.
fn bytes_of(alloc: Global, words: &[u64]) -> Result<Vec<u8>, AllocError>
    requires { length words.now ≤ 67108864 }
    ensures { IfOk result (λ bytes. bytes.items ≡ bytes_of words.now) }
{
    let mut bytes = Vec::with_capacity(alloc, 8 * words.len() + SUM)?;
    for word in words {
        let mut eight = [0; 8];
        LittleEndian::write_u64(&mut eight, *word);
        bytes.extend_from_slice(&eight)?;
    }
    Ok(bytes)
}
