// The words of digests, and the indexes to which they lead.
ghost use Rattle.std.specs.Prelude.{◌≡◌, ◌<◌, ◌≤◌};
ghost use Rattle.cas_model.specs.Trie.{index_of, path, IsDigest};
ghost use Rattle.region_core.specs.Words.{width, words_of};

use cas_model::Digest;

/// The slot to which a digest leads in a table at a level from 0 to 62: its first byte at level 0, and then one
/// half byte a level.
#[tactic(auto, unfolding(cas_model::specs::Trie::index_of))]
pub fn index_at(digest: &Digest, level: u32) -> u64
    requires { level ≤ 62 }
    ensures value { result ≡ index_of digest.now.bytes level }
    ensures within { result < width (path digest.now.bytes level) }
{
    if level == 0 {
        return digest.bytes[0] as u64;
    }
    let nibble = level as usize + 1;
    let byte = digest.bytes[nibble / 2] as u64;
    if nibble % 2 == 0 {
        byte / 16
    } else {
        byte % 16
    }
}

/// The four words of a digest in its record: the first eight bytes as a big-endian number first.
#[tactic(auto, unfolding(crate::specs::Words::word_of))]
pub fn digest_words(digest: &Digest) -> [u64; 4]
    ensures value { result ≡ words_of digest.now.bytes }
    ensures fits { IsDigest digest.now.bytes }
{
    let b = &digest.bytes;
    [
        u64::from_be_bytes([b[0], b[1], b[2], b[3], b[4], b[5], b[6], b[7]]),
        u64::from_be_bytes([b[8], b[9], b[10], b[11], b[12], b[13], b[14], b[15]]),
        u64::from_be_bytes([b[16], b[17], b[18], b[19], b[20], b[21], b[22], b[23]]),
        u64::from_be_bytes([b[24], b[25], b[26], b[27], b[28], b[29], b[30], b[31]]),
    ]
}

/// The digest that has these four words.
#[tactic(auto, unfolding(crate::specs::Words::word_of))]
pub fn digest_of_words(words: [u64; 4]) -> Digest
    ensures { words_of result.bytes ≡ words }
{
    let [a, b, c, d] = words;
    let [a0, a1, a2, a3, a4, a5, a6, a7] = a.to_be_bytes();
    let [b0, b1, b2, b3, b4, b5, b6, b7] = b.to_be_bytes();
    let [c0, c1, c2, c3, c4, c5, c6, c7] = c.to_be_bytes();
    let [d0, d1, d2, d3, d4, d5, d6, d7] = d.to_be_bytes();
    Digest {
        bytes: [
            a0, a1, a2, a3, a4, a5, a6, a7, b0, b1, b2, b3, b4, b5, b6, b7, c0, c1, c2, c3, c4, c5,
            c6, c7, d0, d1, d2, d3, d4, d5, d6, d7,
        ],
    }
}
