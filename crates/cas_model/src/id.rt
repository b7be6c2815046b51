// The text of an id.
ghost use Rattle.std.specs.Prelude.{◌≡◌, ◌<◌, ◌^◌, IfOk, MatchResult};
ghost use Rattle.cas_model.specs.Id.{id_text, digit_index, refusal_of, IdsAreReadBack, IsIdOf, IsRefused, IsKeyOf, IsRefusedKey};

use crate::Digest;
use hex::FromHexError;
use std::alloc::{AllocError, Global};
use thiserror::Error;

/// What an id's text begins with.
const PREFIX: &[u8] = b"llvmcas://";

/// What a key that is named by a text begins with.
const ACTION: &[u8] = b"action:";

/// A digest as it is written: `llvmcas://` and 64 hexadecimal digits, 74 bytes in all. The prefix is this
/// project's own.
#[derive(Clone, Copy, Debug, PartialEq, Eq)]
pub struct Id {
    pub digest: Digest,
}

/// Why a text is no id. The first of these that applies is answered.
#[derive(Clone, Copy, Debug, PartialEq, Eq, Drop, Error)]
pub enum IdError {
    /// The text does not begin with `llvmcas://`.
    #[error("an id begins with llvmcas://")]
    BadPrefix,
    /// The rest is not 64 bytes long.
    #[error("an id has 64 digits")]
    BadLength,
    /// The byte at this index of the rest, counted from 0, is the first that is no hexadecimal digit.
    #[error("digit {0} is no hexadecimal digit")]
    BadDigit(u32),
}

impl Id {
    /// The digest that a text is the id of. Upper-case digits are accepted too. What `text` answers is read back to its
    /// digest, as `ids_are_read_back` says.
    pub fn parse(text: &[u8]) -> Result<Digest, IdError>
        ensures { MatchResult result (λ digest. IsIdOf digest text.now) (λ error. IsRefused error text.now) }
    {
        let Some(digits) = text.strip_prefix(PREFIX) else {
            return Err(IdError::BadPrefix);
        };
        let mut bytes = [0; 32];
        match hex::decode_to_slice(digits, &mut bytes) {
            Ok(()) => Ok(Digest { bytes }),
            Err(error) => Err(refusal(error)),
        }
    }

    /// The digest of a key as it is written: `action:` and any text, which is hashed, or else an id. This is the project's
    /// own way to write keys.
    pub fn parse_key(text: &[u8]) -> Result<Digest, IdError>
        ensures { MatchResult result (λ digest. IsKeyOf digest text.now) (λ error. IsRefusedKey error text.now) }
    {
        match text.strip_prefix(ACTION) {
            Some(name) => Ok(Digest::of_key(name)),
            None => Id::parse(text),
        }
    }

    /// The id's text, with lower-case digits, which `parse` reads back. An error is want of memory.
    pub fn text(&self, alloc: Global) -> Result<Vec<u8>, AllocError>
        ensures { IfOk result (λ text. text.items ≡ id_text self.now.digest) }
    {
        let mut text = PREFIX.to_vec(alloc)?;
        let digits = hex::encode(alloc, self.digest.bytes.as_slice())?;
        text.extend_from_slice(digits.as_bytes())?;
        Ok(text)
    }
}

/// What holds of ids: the text of each digest is the id of this digest, and of no other. It says so by its contract, and
/// does nothing.
pub fn ids_are_read_back()
    ensures { IdsAreReadBack }
{}

// Why 64 digits are none, or that there are not so many.
fn refusal(error: FromHexError) -> IdError
    requires { digit_index error < 2 ^ 32 }
    ensures { result ≡ refusal_of error }
{
    match error {
        FromHexError::InvalidHexCharacter { c: _, index } => IdError::BadDigit(index as u32),
        FromHexError::OddLength | FromHexError::InvalidStringLength | FromHexError::OutOfMemory => {
            IdError::BadLength
        }
    }
}
