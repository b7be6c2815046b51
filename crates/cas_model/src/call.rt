// What a session asks of the store, and what the store answers.
use crate::{Digest, Object};

/// A call of a session: the session's number and the call's number in it, both counted from 0.
#[derive(Clone, Copy, Debug, PartialEq, Eq)]
pub struct Who {
    pub session: u32,
    pub index: u32,
}

/// What a session asks of the store, after the interfaces of LLVM's object store and key-value store.
#[derive(Drop)]
pub enum Call {
    /// Store an object.
    Store(Object),
    /// Load the object with a digest.
    Load(Digest),
    /// Give a key (the first digest) a value (the second), which is an object's digest.
    Put(Digest, Digest),
    /// Get the value of a key.
    Get(Digest),
}

/// What the store answers. `Dangling` and `Full` are this project's own.
#[derive(Drop)]
pub enum Reply {
    /// The object is there, under this digest.
    Stored(Digest),
    /// The object that was asked for.
    Found(Object),
    /// No object has the digest.
    Missing,
    /// The value that the key now has: the first one that it was given.
    Kept(Digest),
    /// The value of the key.
    Hit(Digest),
    /// The key has no value.
    Miss,
    /// The reference at this index, counted from 0, is the first that is absent. A put's value has the index 0.
    Dangling { index: u32, digest: Digest },
    /// A claim of `asked` words at the place `at` passes the end of the region's `size` words.
    Full { at: u64, asked: u64, size: u64 },
}
