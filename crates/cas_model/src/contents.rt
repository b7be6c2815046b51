// What a store holds, in an order in which it can be stored again.
use crate::{Digest, Object};

/// A key and its value.
#[derive(Clone, Copy, Debug, PartialEq, Eq)]
pub struct Pair {
    pub key: Digest,
    pub value: Digest,
}

/// Objects, each after those that it refers to, and the keys with their values.
#[derive(Drop)]
pub struct Contents {
    pub objects: Vec<Object>,
    pub actions: Vec<Pair>,
}
