// The names of generations.
ghost use Rattle.std.specs.Prelude.{◌≡◌, ℕ, IfOk, IfSome, IfNone};
ghost use Rattle.cas_outside.specs.Folder.{MayAsk};
ghost use Rattle.generations.specs.GenerationNames.{IsNameOf, generation_name};

use cas_model::number_within;
use cas_outside::Name;
use itoa::Buffer;
use std::alloc::{AllocError, Global};

/// What a generation's name begins with: the version of its image, and a dot.
const PREFIX: &[u8] = b"v1.";

/// The name of the generation with this number: `v1.` and the number in decimal digits.
pub fn name_of(alloc: Global, number: u32) -> Result<Name, AllocError>
    ensures text { IfOk result (λ name. name ≡ generation_name number) }
    ensures may_ask { IfOk result (λ name. MayAsk name) }
{
    let mut digits = Buffer::new();
    let mut text = PREFIX.to_vec(alloc)?;
    text.extend_from_slice(digits.format(number).as_bytes())?;
    Name::of(alloc, text.as_slice())
}

/// The number of the generation with this name, and None where no generation has it: `v1.` and a decimal number from 1
/// to 4,294,967,295 without leading zeros.
pub fn number_of(name: &[u8]) -> Option<u32>
    ensures found { IfSome result (λ number. IsNameOf number name.now) }
    ensures none { IfNone result ((number : ℕ) → IsNameOf number name.now → ⊥) }
{
    let digits = name.strip_prefix(PREFIX)?;
    let number = number_within(digits, 1, u64::from(u32::MAX))?;
    Some(number as u32)
}
