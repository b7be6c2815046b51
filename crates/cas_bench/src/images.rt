// Closed regions and their images.
use crate::bench_error::BenchError;
use crate::hostile::{crowd_of, overlaps_of};
use crate::piece::{Measured, mixed};
use crate::sample::{contents_of, large_contents_of};
use frozen_store::Frozen;
use image_file::{image_of, read_image};
use region_check::{CheckError, check};
use sha2::{Digest as _, Sha256};
use std::alloc::Global;
use std::time::{Clock, Instant};

/// The largest region, in words.
const SIZE: u64 = 67_108_864;

/// Checks the words of a region with so many objects.
pub fn measure_check(
    clock: &impl Clock,
    alloc: Global,
    count: u64,
) -> Result<Measured, BenchError> {
    let contents = contents_of(alloc, count)?;
    let frozen = Frozen::of_contents(alloc, &contents, SIZE)?;
    let words = frozen.words().to_vec(alloc)?;
    measure_words(clock, alloc, words)
}

/// Checks words in which so many records name one content.
pub fn measure_crowd(
    clock: &impl Clock,
    alloc: Global,
    count: u64,
) -> Result<Measured, BenchError> {
    measure_words(clock, alloc, crowd_of(alloc, count)?)
}

/// Checks words in which so many tables overlap.
pub fn measure_overlaps(
    clock: &impl Clock,
    alloc: Global,
    count: u64,
) -> Result<Measured, BenchError> {
    measure_words(clock, alloc, overlaps_of(alloc, count)?)
}

/// Reads the image of a region with so many large objects.
pub fn measure_read(clock: &impl Clock, alloc: Global, count: u64) -> Result<Measured, BenchError> {
    let image = large_image(alloc, count)?;
    let start = Instant::now(clock)?;
    let frozen = read_image(alloc, &image)?;
    let nanos = start.elapsed(clock)?.as_nanos();
    Ok(Measured {
        check: frozen.used(),
        nanos,
    })
}

/// Makes the image of a region with so many large objects.
pub fn measure_image(
    clock: &impl Clock,
    alloc: Global,
    count: u64,
) -> Result<Measured, BenchError> {
    let contents = large_contents_of(alloc, count)?;
    let frozen = Frozen::of_contents(alloc, &contents, SIZE)?;
    let start = Instant::now(clock)?;
    let image = image_of(alloc, &frozen)?;
    let nanos = start.elapsed(clock)?.as_nanos();
    Ok(Measured {
        check: image.len() as u64,
        nanos,
    })
}

/// The SHA-256 of the image of a region with so many large objects.
pub fn measure_sum(clock: &impl Clock, alloc: Global, count: u64) -> Result<Measured, BenchError> {
    let image = large_image(alloc, count)?;
    let start = Instant::now(clock)?;
    let sum = Sha256::digest(image.as_slice());
    let nanos = start.elapsed(clock)?.as_nanos();
    let check = sum
        .iter()
        .fold(0, |check, byte| mixed(check, u64::from(*byte)));
    Ok(Measured { check, nanos })
}

// The image of a region with so many large objects.
fn large_image(alloc: Global, count: u64) -> Result<Vec<u8>, BenchError> {
    let contents = large_contents_of(alloc, count)?;
    let frozen = Frozen::of_contents(alloc, &contents, SIZE)?;
    Ok(image_of(alloc, &frozen)?)
}

// Checks these words. The check value is how many they are, or the place of the first flaw.
fn measure_words(
    clock: &impl Clock,
    alloc: Global,
    words: Vec<u64>,
) -> Result<Measured, BenchError> {
    let start = Instant::now(clock)?;
    let checked = check(alloc, words);
    let nanos = start.elapsed(clock)?.as_nanos();
    let check = match checked {
        Ok(frozen) => frozen.used(),
        Err(CheckError::Flaw(flaw)) => flaw.place,
        Err(CheckError::Memory) => return Err(BenchError::Memory),
    };
    Ok(Measured { check, nanos })
}
