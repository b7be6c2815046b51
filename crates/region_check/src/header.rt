// The header of words, and their number.
ghost use Rattle.std.specs.Prelude.{◌≡◌, ℕ, ◌<◌, ◌≤◌, length, slice_index, MatchOption, IsTrue, ◌↔◌};
ghost use Rattle.region_check.specs.Flaws.{IsBadHead, IsFirstFlaw};
ghost use Rattle.region_check.specs.Passes.{HasHeader};

use crate::{Flaw, FlawKind};

/// The largest size of a region, in words.
const MOST_WORDS: u64 = 67_108_864;

/// Whether one of the first eight words is not as it must be.
fn is_bad_head(words: &[u64], at: usize) -> bool
    requires long { 520 ≤ length words.now }
    requires at { at < 8 }
    ensures { IsTrue result ↔ IsBadHead words.now at }
{
    let word = words[at];
    match at {
        0 => word != 0x5344_524F_5753_4143,
        1 => word != 1,
        2 => word < 4096 || word > MOST_WORDS,
        3 => word < 520 || word > words[2] || word > words.len() as u64,
        _ => word != 0,
    }
}

/// The first flaw of the header or of the number of words.
pub(crate) fn head_flaw(words: &[u64]) -> Option<Flaw>
    ensures { MatchOption result (HasHeader words.now) (λ flaw. IsFirstFlaw words.now flaw) }
{
    let used = words.len() as u64;
    if used < 520 {
        return Some(Flaw {
            place: used,
            kind: FlawKind::Header,
        });
    }
    for at in 0..8usize {
        if is_bad_head(words, at) {
            return Some(Flaw {
                place: at as u64,
                kind: FlawKind::Header,
            });
        }
    }
    if words[3] < used {
        return Some(Flaw {
            place: words[3],
            kind: FlawKind::PastCounter,
        });
    }
    None
}
