// What slots and cells name, in words that may hold anything.
ghost use Rattle.std.specs.Prelude.{◌≡◌, ◌≢◌, ℕ, ◌+◌, ◌<◌, ◌≤◌, length, slice_index, MatchOption};
ghost use Rattle.region_core.specs.Leads.{NamesTableAt, NamesRecordAt};

/// The word at a place, and 0 past the last.
pub(crate) fn word_at(words: &[u64], at: u64) -> u64
    ensures { result ≡ slice_index words.now at }
{
    if at < words.len() as u64 {
        words[at as usize]
    } else {
        0
    }
}

/// The subtrie that a slot names, where it lies in the arena.
pub(crate) fn table_at(words: &[u64], slot: usize) -> Option<u64>
    requires { slot < length words.now }
    ensures { MatchOption result ((t : ℕ) → NamesTableAt words.now slot t → ⊥) (λ t. NamesTableAt words.now slot t) }
{
    let word = words[slot];
    let used = words.len() as u64;
    let place = word / 4;
    if word % 4 == 2 && place >= 520 && place <= used && used - place >= 16 {
        Some(place)
    } else {
        None
    }
}

/// The record that a slot names, where it lies in the arena.
pub(crate) fn record_at(words: &[u64], slot: usize) -> Option<u64>
    requires { slot < length words.now }
    ensures { MatchOption result ((p : ℕ) → NamesRecordAt words.now slot p → ⊥) (λ p. NamesRecordAt words.now slot p) }
{
    let word = words[slot];
    let used = words.len() as u64;
    let place = word / 4;
    if word % 4 == 1 && place >= 520 && place <= used && used - place >= 5 {
        Some(place)
    } else {
        None
    }
}
