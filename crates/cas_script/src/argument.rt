// What the arguments of a line stand for.
ghost use Rattle.std.specs.Prelude.{◌≡◌, ◌≢◌, ◌++◌, ℕ, List, IfOk, IfErr, MatchOption, MatchResult};
ghost use Rattle.cas_script.specs.Arguments.{IsBackOf, IsNoBack, IsName, IsNoName, IsKey, IsNoKey, IsData, IsNoData, IsAction, OnKind};
ghost use Rattle.hex.specs.Hex.{decode_of};
ghost use Rattle.cas_script.specs.declared.error.LineKind;

use crate::LineKind;
use crate::refusal::Refusal;
use cas_model::{Data, Digest, Id, number_within};
use hex::FromHexError;
use std::alloc::Global;

/// What a reference to a line of the same session begins with.
const BACK: &[u8] = b"%";

/// The highest number that a reference can name: five digits.
const MOST_LINE: u64 = 99_999;

/// What a key that is no id begins with.
const ACTION: &[u8] = b"action:";

/// No data.
const NO_DATA: &[u8] = b"-";

/// What data that is written as it is begins with.
const TEXT: &[u8] = b"t:";

/// What data in hexadecimal digits begins with.
const DIGITS: &[u8] = b"x:";

/// The digest that a token names: it is an id, or `%` and the number of a line that has stored an object.
pub fn name_of(stored: &[Option<Digest>], token: &[u8]) -> Result<Digest, LineKind>
    ensures { MatchResult result (IsName stored.now token.now) (IsNoName stored.now token.now) }
{
    if let Some(digits) = after(token, BACK) {
        return back_of(stored, digits);
    }
    match Id::parse(token) {
        Ok(digest) => Ok(digest),
        Err(_) => Err(LineKind::BadId),
    }
}

/// The digest of a key: it is an id or reference, or `action:` and any bytes.
pub fn key_of(stored: &[Option<Digest>], token: &[u8]) -> Result<Digest, LineKind>
    ensures { MatchResult result (IsKey stored.now token.now) (IsNoKey stored.now token.now) }
{
    match after(token, ACTION) {
        Some(text) => Ok(Digest::of_key(text)),
        None => name_of(stored, token),
    }
}

/// The bytes of data: `-` for none, `t:` and the bytes, or `x:` and their hexadecimal digits.
pub fn data_of(alloc: Global, token: &[u8]) -> Result<Data, Refusal>
    ensures ok { IfOk result (IsData token.now) }
    ensures err { IfErr result (OnKind (IsNoData token.now)) }
{
    if token == NO_DATA {
        return Ok(Data::of(alloc, &[])?);
    }
    if let Some(bytes) = after(token, TEXT) {
        return Ok(Data::of(alloc, bytes)?);
    }
    match after(token, DIGITS) {
        Some(digits) => bytes_of(alloc, digits),
        None => Err(Refusal::Kind(LineKind::BadData)),
    }
}

// The digest that the line with this number has stored.
fn back_of(stored: &[Option<Digest>], digits: &[u8]) -> Result<Digest, LineKind>
    ensures { MatchResult result (IsBackOf stored.now digits.now) (IsNoBack stored.now digits.now) }
{
    let Some(number) = number_within(digits, 1, MOST_LINE) else {
        return Err(LineKind::BadId);
    };
    match stored.get(number as usize - 1) {
        Some(Some(digest)) => Ok(*digest),
        Some(None) | None => Err(LineKind::BadReference),
    }
}

// The bytes of hexadecimal digits.
fn bytes_of(alloc: Global, digits: &[u8]) -> Result<Data, Refusal>
    ensures ok { IfOk result (λ bytes. decode_of digits.now ≡ Ok bytes) }
    ensures err { IfErr result (OnKind (λ kind. (kind ≡ LineKind.BadData) × ((bytes : List ℕ) → decode_of digits.now ≢ Ok bytes))) }
{
    match hex::decode(alloc, digits) {
        Ok(bytes) => Ok(Data::from_vec(bytes)),
        Err(FromHexError::OutOfMemory) => Err(Refusal::Memory),
        Err(_) => Err(Refusal::Kind(LineKind::BadData)),
    }
}

// What stands after this front, if the token begins with it.
fn after<'a>(token: &'a [u8], front: &[u8]) -> Option<&'a [u8]>
    ensures { MatchOption result ((rest : List ℕ) → token.now ≢ front.now ++ rest) (λ rest. token.now ≡ front.now ++ rest.now) }
{
    token.strip_prefix(front)
}
