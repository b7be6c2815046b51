// Cutting a text at a byte.
ghost use Rattle.std.specs.Prelude.{◌≡◌, ◌∷◌, ◌+◌, length, option_copied};
ghost use Rattle.cas_script.specs.Text.{pieces, more_pieces, speaks};

use memchr::memchr;

/// What stands before the first byte `mark`, and what stands after it, if there is one.
pub fn cut(text: &[u8], mark: u8) -> (&[u8], Option<&[u8]>)
    ensures { pieces mark text.now ≡ result.0.now ∷ more_pieces mark (option_copied result.1) }
{
    match memchr(mark, text) {
        Some(at) => (&text[..at], Some(&text[at + 1..])),
        None => (text, None),
    }
}

/// How many pieces there are between the bytes `mark`.
#[tactic(auto, using(crate::proofs::PieceLists::count_is))]
pub fn count_pieces(text: &[u8], mark: u8) -> usize
    ensures { result ≡ length (pieces mark text.now) }
{
    text.iter().filter(|b| **b == mark).count() + 1
}

/// Whether a line says something: it is not empty and does not begin with `#`.
pub fn speaks(line: &[u8]) -> bool
    ensures { result ≡ speaks line.now }
{
    match line {
        [] => false,
        [first, ..] => *first != b'#',
    }
}
