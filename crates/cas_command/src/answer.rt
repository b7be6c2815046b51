// What a run answers, and the status and the text of each answer.
ghost use Rattle.std.specs.Prelude.{◌≡◌, ◌++◌, IfOk, OnOk};
ghost use Rattle.std.specs.String.{string_bytes};
ghost use Rattle.cas_command.specs.Answer.{answer_line, damage_words, damaged_line, digits_after, flaw_number, flaw_words, full_line, kind_end, kind_number, line_with, reason_of, status_of};
ghost use Rattle.cas_command.specs.declared.answer.Answer.TheVariants.{BadScript, Poisoned, TooLarge, Usage};

use crate::seen_run::Front;
use crate::output::push_id;
use cas_model::{Digest, Full, Id, IdError};
use cas_script::LineKind;
use command_line::UsageKind;
use image_file::ImageError;
use region_check::{Flaw, FlawKind};
use std::alloc::{AllocError, Global};

/// What passes its limit.
#[derive(Clone, Copy, Debug, PartialEq, Eq)]
pub enum Large {
    /// The data of an object, in bytes.
    Data,
    /// The references of an object.
    References,
    /// A script, in bytes.
    Script,
}

/// How a run ended. The statuses and texts are this project's own.
#[derive(Clone, Copy, Debug, PartialEq, Eq)]
pub enum Answer {
    /// All was done, and the output was written.
    Done,
    /// The store has no object, or no value, for the digest that was asked for.
    Missing(Digest),
    /// The words are no command.
    Usage(UsageKind),
    /// The source failed.
    ReadFault,
    /// The sink failed, after a part of the output.
    WriteFault,
    /// The folder failed.
    FolderFault,
    /// The file of the generation with this number is no image.
    Damaged { name: u32, error: ImageError },
    /// A claim of the command's one call was refused.
    Full(Full),
    /// The key has another value than the one that it was to be given.
    Poisoned { wanted: Digest, kept: Digest },
    /// The reference at this index, counted from 0, is the first that is absent. A put's value has the index 0.
    Dangling { index: u32, digest: Digest },
    /// The line with this number, counted from 1, is the first of the script that has no reading.
    BadScript { line: u32, kind: LineKind },
    /// Another holds the folder's lock.
    Held,
    /// Something passes its limit; `number` is the first that is too large.
    TooLarge { what: Large, number: u64 },
    /// There was no memory.
    NoMemory,
}

/// What a run answers, with its exit status and with what contracts see of the run.
#[derive(Drop)]
pub struct Outcome {
    pub status: u8,
    pub answer: Answer,
    pub front: Front,
}

impl From<AllocError> for Answer {
    ghost use Rattle.std.specs.Prelude.{◌≡◌};
    ghost use Rattle.cas_command.specs.declared.answer.Answer.TheVariants.{NoMemory};

    ghost from_gives = { λ _ e. e ≡ NoMemory };

    fn from(_: AllocError) -> Self {
        Answer::NoMemory
    }
}

impl Answer {
    /// The exit status of this answer.
    pub fn status(self) -> u8
        ensures { result ≡ status_of self }
    {
        match self {
            Answer::Done => 0,
            Answer::Missing(_) => 1,
            Answer::Usage(_) => 2,
            Answer::ReadFault => 3,
            Answer::WriteFault => 4,
            Answer::FolderFault => 5,
            Answer::Damaged { .. } => 6,
            Answer::Full(_) => 7,
            Answer::Poisoned { .. } => 8,
            Answer::Dangling { .. } => 9,
            Answer::BadScript { .. } => 10,
            Answer::Held => 11,
            Answer::TooLarge { .. } => 12,
            Answer::NoMemory => 70,
        }
    }
}

/// The one line that `main` prints to standard error for an answer, with its line end; no byte for `Done`, nor for damage
/// that is want of memory, which no run answers.
pub fn answer_text(alloc: Global, answer: &Answer) -> Result<Vec<u8>, AllocError>
    ensures { IfOk result (λ text. text.items ≡ answer_line answer.now) }
{
    match *answer {
        Answer::Done => Ok(Vec::new(alloc)),
        Answer::Missing(digest) => {
            let mut text = b"llvm-cas: missing ".to_vec(alloc)?;
            push_id(alloc, &mut text, digest)?;
            Ok(text)
        }
        Answer::Usage(kind) => usage_text(alloc, kind),
        Answer::ReadFault => line_of(alloc, "cannot read the input"),
        Answer::WriteFault => line_of(alloc, "cannot write the output"),
        Answer::FolderFault => line_of(alloc, "cannot use the folder"),
        Answer::Damaged { name, error } => damaged_text(alloc, name, error),
        Answer::Full(full) => full_text(alloc, full),
        Answer::Poisoned { wanted, kept } => poisoned_text(alloc, wanted, kept),
        Answer::Dangling { index, digest } => {
            let mut text = format!(in alloc; "llvm-cas: dangling {index} ")?.into_bytes();
            push_id(alloc, &mut text, digest)?;
            Ok(text)
        }
        Answer::BadScript { line, kind } => script_text(alloc, line, kind),
        Answer::Held => line_of(alloc, "the folder is in use"),
        Answer::TooLarge { what, number } => large_text(alloc, what, number),
        Answer::NoMemory => line_of(alloc, "no memory"),
    }
}

fn usage_text(alloc: Global, kind: UsageKind) -> Result<Vec<u8>, AllocError>
    ensures { IfOk result (λ text. text.items ≡ answer_line (Usage kind)) }
{
    match kind {
        UsageKind::Words => line_of(alloc, "usage: bad words"),
        UsageKind::Operands(count) => {
            let line = format!(in alloc; "llvm-cas: usage: {count}")?;
            with_end(line, b" operands\n")
        }
        UsageKind::BadOperand(index, error) => {
            let line = format!(in alloc; "llvm-cas: usage: operand {index}")?;
            with_end(line, &reason_text(alloc, error)?)
        }
    }
}

// A line with its end.
fn with_end(line: String, end: &[u8]) -> Result<Vec<u8>, AllocError>
    ensures { IfOk result (λ text. text.items ≡ string_bytes line ++ end.now) }
{
    let mut text = line.into_bytes();
    text.extend_from_slice(end)?;
    Ok(text)
}

// The end of a line that says why an operand did not read.
fn reason_text(alloc: Global, error: IdError) -> Result<Vec<u8>, AllocError>
    ensures { IfOk result (λ text. text.items ≡ reason_of error) }
{
    match error {
        IdError::BadPrefix => b": prefix\n".to_vec(alloc),
        IdError::BadLength => b": length\n".to_vec(alloc),
        IdError::BadDigit(digit) => {
            let line = format!(in alloc; ": digit {digit}\n")?;
            Ok(line.into_bytes())
        }
    }
}

fn large_text(alloc: Global, what: Large, number: u64) -> Result<Vec<u8>, AllocError>
    ensures { IfOk result (λ text. text.items ≡ answer_line (TooLarge what number)) }
{
    let line = match what {
        Large::Data => format!(in alloc; "llvm-cas: too large: data {number}\n")?,
        Large::References => format!(in alloc; "llvm-cas: too large: references {number}\n")?,
        Large::Script => format!(in alloc; "llvm-cas: too large: script {number}\n")?,
    };
    Ok(line.into_bytes())
}

fn script_text(alloc: Global, line: u32, kind: LineKind) -> Result<Vec<u8>, AllocError>
    ensures { IfOk result (λ text. text.items ≡ answer_line (BadScript line kind)) }
{
    let mut text = format!(in alloc; "llvm-cas: script line {line}")?.into_bytes();
    let end = kind_text(alloc, kind)?;
    text.extend_from_slice(&end)?;
    Ok(text)
}

// The end of a line that says why a script's line has no reading.
fn kind_text(alloc: Global, kind: LineKind) -> Result<Vec<u8>, AllocError>
    ensures { IfOk result (λ text. text.items ≡ kind_end kind) }
{
    let number = number_of(kind);
    let line = format!(in alloc; ": {number}\n")?;
    Ok(line.into_bytes())
}

// The number of a line's refusal, as docs/SCRIPT.md has it.
fn number_of(kind: LineKind) -> u8
    ensures { result ≡ kind_number kind }
{
    match kind {
        LineKind::BadVerb => 1,
        LineKind::BadArguments => 2,
        LineKind::BadId => 3,
        LineKind::BadData => 4,
        LineKind::BadReference => 5,
        LineKind::NoSession => 6,
        LineKind::TooManySessions => 7,
        LineKind::TooManyLines => 8,
        LineKind::TooManyRefs => 9,
    }
}

// The line for a refused claim.
fn full_text(alloc: Global, full: Full) -> Result<Vec<u8>, AllocError>
    ensures { IfOk result (λ text. text.items ≡ full_line full) }
{
    let at = full.at;
    let asked = full.asked;
    let size = full.size;
    let line = format!(in alloc; "llvm-cas: full {at} {asked} {size}\n")?;
    Ok(line.into_bytes())
}

// The line for a damaged generation.
fn damaged_text(alloc: Global, name: u32, error: ImageError) -> Result<Vec<u8>, AllocError>
    ensures { IfOk result (λ text. text.items ≡ damaged_line name error) }
{
    if error == ImageError::Memory {
        return Ok(Vec::new(alloc));
    }
    let mut text = format!(in alloc; "llvm-cas: damaged v1.{name}: ")?.into_bytes();
    let what = damage_text(alloc, error)?;
    text.extend_from_slice(&what)?;
    text.push(b'\n')?;
    Ok(text)
}

// What is wrong with an image.
fn damage_text(alloc: Global, error: ImageError) -> Result<Vec<u8>, AllocError>
    ensures { IfOk result (λ text. text.items ≡ damage_words error) }
{
    match error {
        ImageError::Long => b"too long".to_vec(alloc),
        ImageError::Short => b"too short".to_vec(alloc),
        ImageError::Ragged => b"ragged".to_vec(alloc),
        ImageError::Sum { kept, found } => {
            let mut text = b"sum".to_vec(alloc)?;
            push_digits(alloc, &mut text, kept)?;
            push_digits(alloc, &mut text, found)?;
            Ok(text)
        }
        ImageError::Version(version) => {
            let text = format!(in alloc; "version {version}")?;
            Ok(text.into_bytes())
        }
        ImageError::Flaw(flaw) => flaw_text(alloc, flaw),
        ImageError::Memory => Ok(Vec::new(alloc)),
    }
}

// A flaw, by its number and place.
fn flaw_text(alloc: Global, flaw: Flaw) -> Result<Vec<u8>, AllocError>
    ensures { IfOk result (λ text. text.items ≡ flaw_words flaw.kind flaw.place) }
{
    let number = flaw_number(flaw.kind);
    let place = flaw.place;
    let mut text = format!(in alloc; "flaw {number} at {place}")?.into_bytes();
    if let FlawKind::DigestDiffers { kept, found } = flaw.kind {
        push_digits(alloc, &mut text, kept)?;
        push_digits(alloc, &mut text, found)?;
    }
    Ok(text)
}

// The number of a flaw's kind, as docs/REGION.md has it.
fn flaw_number(kind: FlawKind) -> u8
    ensures { result ≡ flaw_number kind }
{
    match kind {
        FlawKind::Header => 1,
        FlawKind::Slot => 2,
        FlawKind::Range => 3,
        FlawKind::Overlap => 4,
        FlawKind::Path => 5,
        FlawKind::Length => 6,
        FlawKind::Padding => 7,
        FlawKind::Reference => 8,
        FlawKind::Order => 9,
        FlawKind::DigestDiffers { .. } => 10,
        FlawKind::ActionValue => 11,
        FlawKind::PastCounter => 12,
    }
}

// Adds a space and the digits of a digest.
fn push_digits(alloc: Global, text: &mut Vec<u8>, digest: Digest) -> Result<(), AllocError>
    ensures { OnOk result (text.new.items ≡ text.old.items ++ digits_after digest) }
{
    let digits = hex::encode(alloc, digest.bytes.as_slice())?;
    text.push(b' ')?;
    text.extend_from_slice(digits.as_bytes())?;
    Ok(())
}

fn poisoned_text(alloc: Global, wanted: Digest, kept: Digest) -> Result<Vec<u8>, AllocError>
    ensures { IfOk result (λ text. text.items ≡ answer_line (Poisoned wanted kept)) }
{
    let mut text = b"llvm-cas: poisoned ".to_vec(alloc)?;
    let wanted = Id { digest: wanted }.text(alloc)?;
    text.extend_from_slice(&wanted)?;
    text.push(b' ')?;
    push_id(alloc, &mut text, kept)?;
    Ok(text)
}

// A line of standard error with these words.
fn line_of(alloc: Global, words: &str) -> Result<Vec<u8>, AllocError>
    ensures { IfOk result (λ line. line.items ≡ line_with words.now) }
{
    let line = format!(in alloc; "llvm-cas: {words}\n")?;
    Ok(line.into_bytes())
}
