// The digest of an object, and of a key.
ghost use Rattle.std.specs.Prelude.{◌≡◌, ◌<◌, ◌^◌, length};
ghost use Rattle.cas_model.specs.Object.{digest_of, key_digest};

use sha2::{Digest as _, Sha256};

/// The SHA-256 of an object's canonical bytes, or of a key's text.
#[derive(Clone, Copy, Debug, PartialEq, Eq, PartialOrd, Ord)]
pub struct Digest {
    pub bytes: [u8; 32],
}

impl Digest {
    /// The digest of the object with these references and this data.
    pub fn of(refs: &[Digest], data: &[u8]) -> Digest
        ensures { result ≡ digest_of refs.now «data».now }
    {
        let mut hasher = Sha256::new();
        hasher.update((refs.len() as u64).to_le_bytes());
        for r in refs {
            hasher.update(r.bytes);
        }
        hasher.update((data.len() as u64).to_le_bytes());
        hasher.update(data);
        Digest {
            bytes: hasher.finalize(),
        }
    }

    /// The digest of a key's text.
    pub fn of_key(text: &[u8]) -> Digest
        ensures { result ≡ key_digest text.now }
    {
        Digest {
            bytes: Sha256::digest(text),
        }
    }
}
