// What an event of a run is noted with: whose it is, and what it is about.
use crate::Who;

/// What an event of a call is about.
#[derive(Clone, Copy, Debug, PartialEq, Eq)]
pub enum Stage {
    /// The call's reference at this index, counted from 0. A put's value is its reference 0.
    Ref(u32),
    /// The digest that the call stores or loads.
    Own,
    /// The key that the call puts or gets.
    Key,
    /// An object that is brought in from the upstream.
    Deep,
}

/// The call that makes an event, and what the event is about.
#[derive(Clone, Copy, Debug, PartialEq, Eq)]
pub struct Note {
    pub who: Who,
    pub stage: Stage,
}
