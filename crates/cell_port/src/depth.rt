// How deep a digest's way in a trie is shared with those of others.
ghost use Rattle.std.specs.Prelude.{◌≡◌, ◌<◌, ◌≤◌};
ghost use Rattle.std.specs.BTreeMap as tree;
ghost use Rattle.std.specs.Option.{MatchOption};
ghost use Rattle.cas_model.specs.Trie.{index_of};
ghost use Rattle.cell_port.specs.Depth.{digests_of, needed_beside, shared_level};

use cas_model::{Digest, Place};
use std::collections::BTreeMap;

/// How many subtries a digest needs that the digests of a map do not need already. In the order of their bytes the level
/// that they share with it rises towards it and falls after it, so the two deepest levels are among the nearest two before
/// it and the nearest two from it on.
pub fn new_subtries(places: &BTreeMap<[u8; 32], Place>, digest: &Digest) -> u64
    ensures count { result ≡ needed_beside (digests_of (tree.keys places.now)) digest.now }
    ensures most { result ≤ 62 }
{
    let mut below = places.range(..digest.bytes);
    let before = level_of(below.next_back(), digest);
    let next_before = level_of(below.next_back(), digest);
    let mut above = places.range(digest.bytes..);
    let after = level_of(above.next(), digest);
    let next_after = level_of(above.next(), digest);
    let deepest = before.max(after);
    let second = before.min(after).max(next_before).max(next_after);
    deepest - second
}

// The level that a digest shares with its neighbour in a map, 0 where it has none.
fn level_of(neighbour: Option<(&[u8; 32], &Place)>, digest: &Digest) -> u64
    ensures { MatchOption neighbour.entry (result ≡ 0) (λ n. result ≡ shared_level (record { bytes = n.0.now }) digest.now) }
{
    match neighbour {
        Some((bytes, _)) => common_level(&Digest { bytes: *bytes }, digest),
        None => 0,
    }
}

// The deepest level, at most 62, to which both digests lead by the same indexes.
fn common_level(a: &Digest, b: &Digest) -> u64
    ensures level { result ≡ shared_level a.now b.now }
    ensures most { result ≤ 62 }
{
    let mut level = 0;
    while level < 62 && index_at(a, level) == index_at(b, level) {
        level += 1;
    }
    level as u64
}

// The index by which a digest leads on from a level: its first byte, and then a half of a byte a level, the high one
// first.
fn index_at(digest: &Digest, level: usize) -> u8
    requires { level < 63 }
    ensures { result ≡ index_of digest.now.bytes level }
{
    if level == 0 {
        return digest.bytes[0];
    }
    let half = level + 1;
    let byte = digest.bytes[half / 2];
    if half % 2 == 0 { byte / 16 } else { byte % 16 }
}
