// The words of a digest in a record.
ghost use Rattle.std.specs.Prelude.{◌≡◌, ◌<◌};
ghost use Rattle.cas_port.specs.Calls.{digest_word};

use cas_model::Digest;

/// One of the four words of a digest: eight of its bytes, the high one first.
#[tactic(auto, unfolding(cas_port::specs::Calls::digest_word))]
pub fn digest_word(digest: &Digest, index: u64) -> u64
    requires { index < 4 }
    ensures { result ≡ digest_word digest.now index }
{
    let b = &digest.bytes[8 * index as usize..];
    u64::from_be_bytes([b[0], b[1], b[2], b[3], b[4], b[5], b[6], b[7]])
}
