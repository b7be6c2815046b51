// Trees of objects that are brought from an upstream.
use crate::bench_error::BenchError;
use crate::piece::{Measured, mixed};
use cas_model::{Digest, NoUpstream, Who};
use cell_port::PlainPort;
use fault_in::fault_in;
use frozen_store::Frozen;
use graph_db::store;
use std::alloc::Global;
use std::time::{Clock, Instant};

/// The largest region, in words.
const SIZE: u64 = 67_108_864;

/// The most references of an object.
const REFS: usize = 65_535;

/// How many leaves a node of a wide tree refers to.
const LEAVES: usize = 1_000;

const CALL: Who = Who {
    session: 0,
    index: 0,
};

/// Brings in a chain of so many objects, each of which refers to the one before.
pub fn measure_chain(
    clock: &impl Clock,
    alloc: Global,
    count: u64,
) -> Result<Measured, BenchError> {
    let mut origin = PlainPort::new(alloc, SIZE)?;
    let mut top = store_in(&mut origin, &[], 0)?;
    for number in 1..count {
        top = store_in(&mut origin, &[top], number)?;
    }
    measure_bring(clock, alloc, &origin, &top)
}

/// Brings in a root whose references refer to so many leaves.
pub fn measure_wide(clock: &impl Clock, alloc: Global, count: u64) -> Result<Measured, BenchError> {
    let mut origin = PlainPort::new(alloc, SIZE)?;
    let mut leaves = Vec::new(alloc);
    for number in 0..count {
        leaves.push(store_in(&mut origin, &[], number)?)?;
    }
    let mut nodes = Vec::new(alloc);
    for refs in leaves.chunks(LEAVES) {
        nodes.push(store_in(&mut origin, refs, 0)?)?;
    }
    let root = store_in(&mut origin, nodes.as_slice(), 0)?;
    measure_bring(clock, alloc, &origin, &root)
}

// Stores the object with these references and a number as its data.
fn store_in<'u>(
    port: &mut PlainPort<'u, NoUpstream>,
    refs: &[Digest],
    number: u64,
) -> Result<Digest, BenchError> {
    if refs.len() > REFS {
        return Err(BenchError::Full);
    }
    Ok(store(port, CALL, refs, number.to_le_bytes().as_slice())?)
}

// Brings the tree of an object of a region into an empty region over it. The check value is how many events that takes.
fn measure_bring<'u>(
    clock: &impl Clock,
    alloc: Global,
    origin: &PlainPort<'u, NoUpstream>,
    top: &Digest,
) -> Result<Measured, BenchError> {
    let up = Frozen::of_contents(alloc, &origin.contents()?, SIZE)?;
    let mut port = PlainPort::new(alloc, SIZE)?.under(&up);
    let start = Instant::now(clock)?;
    let there = fault_in(alloc, &mut port, CALL, &up, top)?;
    let nanos = start.elapsed(clock)?.as_nanos();
    let events = port.into_events().list().len() as u64;
    Ok(Measured {
        check: mixed(u64::from(there), events),
        nanos,
    })
}
