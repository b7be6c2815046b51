//! What the crates of tests share: calls by their numbers, an absent digest, and digests whose bytes no proof computes.
#![tactic(auto)]

ghost use Rattle.std.specs.Prelude.{◌≡◌};

use cas_model::{Digest, Who};

/// 32 zero bytes, which no object has as its digest.
pub const ABSENT: Digest = Digest { bytes: [0; 32] };

/// The call of the first session with this number.
pub fn call(index: u32) -> Who
    ensures { result ≡ record { session = 0; index = index } }
{
    Who { session: 0, index }
}

/// The digest of the object with these references and this data. Its contract is silent, so a test that names data
/// has no hash to compute in its proof.
pub fn hashed(refs: &[Digest], data: &[u8]) -> Digest {
    Digest::of(refs, data)
}

/// The digest of the key with this text. Its contract is silent, as that of `hashed`.
pub fn hashed_key(text: &[u8]) -> Digest {
    Digest::of_key(text)
}
