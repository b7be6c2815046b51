// The pieces that are timed.
use crate::acts::{measure_acts, measure_parse};
use crate::bench_error::BenchError;
use crate::bring::{measure_chain, measure_wide};
use crate::images::{
    measure_check, measure_crowd, measure_image, measure_overlaps, measure_read, measure_sum,
};
use crate::sample::{BYTES, bytes_of, contents_of};
use cas_model::{Digest, Object, Space};
use frozen_store::Frozen;
use region_core::{build, digest_words};
use sha2::{Digest as _, Sha256};
use std::alloc::Global;
use std::time::{Clock, Instant};

/// The largest region, in words.
const SIZE: u64 = 67_108_864;

/// What is timed.
#[derive(Clone, Copy)]
pub enum Piece {
    /// The SHA-256 of each object's canonical bytes.
    Hash,
    /// The words of a region that holds the objects.
    Build,
    /// A look in a closed region for each object's content.
    Look,
    /// The contents of a closed region.
    Contents,
    /// A script of cached actions.
    Parse,
    /// The SHA-256 of the canonical bytes of each of their objects.
    Acts,
    /// The check of a region's words.
    Check,
    /// The check of words in which many records name one content.
    Crowd,
    /// The check of words in which many tables overlap.
    Overlaps,
    /// The region of an image.
    Read,
    /// The image of a region.
    Image,
    /// The SHA-256 of an image.
    Sum,
    /// A chain of objects, brought from an upstream.
    BringChain,
    /// A wide tree of objects, brought from an upstream.
    BringWide,
}

/// What a piece gave, and how long it took.
#[derive(Clone, Copy)]
pub struct Measured {
    /// A number that depends on all that the piece gave.
    pub check: u64,
    /// The time that it took, in nanoseconds.
    pub nanos: u128,
}

impl Piece {
    /// The piece with a name, and None where there is none.
    pub fn named(name: &str) -> Option<Piece> {
        match name {
            "digest" => Some(Piece::Hash),
            "build" => Some(Piece::Build),
            "look" => Some(Piece::Look),
            "contents" => Some(Piece::Contents),
            "parse" => Some(Piece::Parse),
            "acts" => Some(Piece::Acts),
            "check" => Some(Piece::Check),
            "crowd" => Some(Piece::Crowd),
            "overlaps" => Some(Piece::Overlaps),
            "read" => Some(Piece::Read),
            "image" => Some(Piece::Image),
            "sum" => Some(Piece::Sum),
            "bring-chain" => Some(Piece::BringChain),
            "bring-wide" => Some(Piece::BringWide),
            _ => None,
        }
    }

    /// Times the piece on so many objects, lines, records or tables.
    pub fn measure(
        self,
        clock: &impl Clock,
        alloc: Global,
        count: u64,
    ) -> Result<Measured, BenchError> {
        match self {
            Piece::Hash => measure_hash(clock, count),
            Piece::Build => measure_build(clock, alloc, count),
            Piece::Look => measure_look(clock, alloc, count),
            Piece::Contents => measure_contents(clock, alloc, count),
            Piece::Parse => measure_parse(clock, alloc, count),
            Piece::Acts => measure_acts(clock, alloc, count),
            Piece::Check => measure_check(clock, alloc, count),
            Piece::Crowd => measure_crowd(clock, alloc, count),
            Piece::Overlaps => measure_overlaps(clock, alloc, count),
            Piece::Read => measure_read(clock, alloc, count),
            Piece::Image => measure_image(clock, alloc, count),
            Piece::Sum => measure_sum(clock, alloc, count),
            Piece::BringChain => measure_chain(clock, alloc, count),
            Piece::BringWide => measure_wide(clock, alloc, count),
        }
    }
}

/// A check value that depends on one more word.
pub fn mixed(check: u64, word: u64) -> u64 {
    check.wrapping_mul(31).wrapping_add(word)
}

// The canonical bytes of the object with a number: no references, and its bytes of data.
fn canon_of(number: u64) -> [u8; 16 + BYTES] {
    let mut canon = [0; 16 + BYTES];
    canon[8] = BYTES as u8;
    for (at, byte) in bytes_of(number).iter().enumerate() {
        canon[16 + at] = *byte;
    }
    canon
}

fn measure_hash(clock: &impl Clock, count: u64) -> Result<Measured, BenchError> {
    let start = Instant::now(clock)?;
    let mut check = 0;
    for number in 0..count {
        let digest = Digest {
            bytes: Sha256::digest(canon_of(number).as_slice()),
        };
        check = mixed(check, digest_words(&digest)[0]);
    }
    let nanos = start.elapsed(clock)?.as_nanos();
    Ok(Measured { check, nanos })
}

fn measure_build(clock: &impl Clock, alloc: Global, count: u64) -> Result<Measured, BenchError> {
    let contents = contents_of(alloc, count)?;
    let start = Instant::now(clock)?;
    let words = build(alloc, &contents, SIZE)?;
    let nanos = start.elapsed(clock)?.as_nanos();
    let check = words.iter().fold(0, |check, word| mixed(check, *word));
    Ok(Measured { check, nanos })
}

fn measure_look(clock: &impl Clock, alloc: Global, count: u64) -> Result<Measured, BenchError> {
    let contents = contents_of(alloc, count)?;
    let frozen = Frozen::of_contents(alloc, &contents, SIZE)?;
    let mut digests = Vec::new(alloc);
    for object in contents.objects.iter() {
        digests.push(digest_of(object))?;
    }
    let start = Instant::now(clock)?;
    let mut check = 0;
    for digest in &digests {
        let place = frozen
            .look(Space::Objects, digest)
            .map_or(0, |place| place.at);
        check = mixed(check, place);
    }
    let nanos = start.elapsed(clock)?.as_nanos();
    Ok(Measured { check, nanos })
}

fn measure_contents(clock: &impl Clock, alloc: Global, count: u64) -> Result<Measured, BenchError> {
    let contents = contents_of(alloc, count)?;
    let frozen = Frozen::of_contents(alloc, &contents, SIZE)?;
    let start = Instant::now(clock)?;
    let held = frozen.contents(alloc)?;
    let nanos = start.elapsed(clock)?.as_nanos();
    let check = held.objects.iter().fold(0, |check, object| {
        mixed(check, digest_words(&digest_of(object))[0])
    });
    Ok(Measured { check, nanos })
}

fn digest_of(object: &Object) -> Digest {
    Digest::of(object.refs.list(), object.data.list())
}
