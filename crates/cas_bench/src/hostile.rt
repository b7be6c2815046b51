// Words that no region has, and that a careless check would look at again and again.
use std::alloc::{AllocError, Global};

/// The words before the arena.
const HEADER: usize = 520;

/// The first word of each region.
const MAGIC: u64 = 0x5344_524F_5753_4143;

/// The largest region, in words.
const SIZE: u64 = 67_108_864;

/// The references and the bytes of the content that is named too often: none and 2,000,000.
const CROWDED: u64 = 2_000_000;

/// The slots of a root.
const ROOT: usize = 256;

/// As many levels of tables as the largest region has room for.
const LEVELS: u32 = 5;

/// The words of such a content.
const CROWDED_WORDS: usize = 250_001;

/// Words in which so many records name one content.
pub fn crowd_of(alloc: Global, records: u64) -> Result<Vec<u64>, AllocError> {
    let mut words = header_of(alloc)?;
    let content = push_block(&mut words, &[CROWDED])?;
    words.resize(HEADER + CROWDED_WORDS, 0)?;
    let mut slots = Vec::new(alloc);
    for number in 0..records {
        let record = push_block(&mut words, &[number, 0, 0, 0, content])?;
        slots.push(slot_of(record, 1))?;
    }
    // Each level of tables leaves a sixteenth of the slots.
    for _ in 0..LEVELS {
        if slots.len() > ROOT {
            slots = tables_of(alloc, &mut words, &slots)?;
        }
    }
    for (word, slot) in words.iter_mut().skip(8).zip(slots.iter()) {
        *word = *slot;
    }
    ended(words)
}

/// Words in which so many tables overlap: each begins one word after the one that names it.
pub fn overlaps_of(alloc: Global, tables: u64) -> Result<Vec<u64>, AllocError> {
    let mut words = header_of(alloc)?;
    for _ in 0..tables {
        let next = (words.len() as u64).wrapping_add(1);
        words.push(slot_of(next, 2))?;
    }
    for _ in 0..16 {
        words.push(0)?;
    }
    if let Some(root) = words.get_mut(8) {
        *root = slot_of(HEADER as u64, 2);
    }
    ended(words)
}

// The header of a region of the largest size, with empty roots.
fn header_of(alloc: Global) -> Result<Vec<u64>, AllocError> {
    let mut words = Vec::new(alloc);
    words.extend_from_slice(&[MAGIC, 1, SIZE])?;
    words.resize(HEADER, 0)?;
    Ok(words)
}

// Adds a block, and answers its place.
fn push_block(words: &mut Vec<u64>, block: &[u64]) -> Result<u64, AllocError> {
    let place = words.len() as u64;
    words.extend_from_slice(block)?;
    Ok(place)
}

// The word of a slot that names the block at a place: a record with the kind 1, and a table with 2.
fn slot_of(place: u64, kind: u64) -> u64 {
    place.wrapping_mul(4).wrapping_add(kind)
}

// Tables that have these slots, 16 each, and the slots that name them.
fn tables_of(alloc: Global, words: &mut Vec<u64>, slots: &[u64]) -> Result<Vec<u64>, AllocError> {
    let mut tables = Vec::new(alloc);
    for chunk in slots.chunks(16) {
        let place = push_block(words, chunk)?;
        for _ in chunk.len()..16 {
            words.push(0)?;
        }
        tables.push(slot_of(place, 2))?;
    }
    Ok(tables)
}

// The words with their number in the counter.
fn ended(mut words: Vec<u64>) -> Result<Vec<u64>, AllocError> {
    let used = words.len() as u64;
    if let Some(counter) = words.get_mut(3) {
        *counter = used;
    }
    Ok(words)
}
