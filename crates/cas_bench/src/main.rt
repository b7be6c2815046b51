//! Times one piece of the store on objects that are made up: prints a check value to standard output, and the
//! nanoseconds that the piece took to standard error. It is not shipped.
//!
//! The words are the piece, and a number: of objects of 100 bytes each for `digest`, `build`, `look`, `contents` and
//! `check`; of script lines for `parse` and `acts`; of records that name one content for `crowd`, of tables for
//! `overlaps`; of objects of 16,777,215 bytes each, at most 256, for `read`, `image` and `sum`; of the objects of a chain for
//! `bring-chain`; and of the leaves of a tree for `bring-wide`.
#![tactic(auto)]

mod acts;
mod bench_error;
mod bring;
mod hostile;
mod images;
mod piece;
mod sample;

use bench_error::BenchError;
use piece::{Measured, Piece};
use std::env;

fn main(rt: HostRuntime) -> Result<(), BenchError> {
    let mut words = Vec::new(rt.alloc());
    for word in env::args(&rt)?.skip(1) {
        words.push(word)?;
    }
    let Measured { check, nanos } = match words.as_slice() {
        [name, count] => {
            let piece = Piece::named(name).ok_or(BenchError::Words)?;
            let count = count.parse().map_err(|_| BenchError::Words)?;
            piece.measure(&rt, rt.alloc(), count)?
        }
        _ => return Err(BenchError::Words),
    };
    println!(rt; "{check}")?;
    eprintln!(rt; "{nanos}")?;
    Ok(())
}
