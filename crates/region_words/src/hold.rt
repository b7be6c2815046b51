// For whom a seat has a block.

/// For whom a seat has a block that it claimed and has not published.
#[derive(Clone, Copy, Debug, PartialEq, Eq)]
pub enum Hold {
    /// For its caller, who writes it and fills a record with it.
    Caller,
    /// For a bind at work: a record or a table of a trie. No port shows it.
    Bind,
}
