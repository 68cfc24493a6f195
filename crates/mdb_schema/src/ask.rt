//! The questions that an index is asked.

/// What an index is asked (go-memdb's `Txn.First`, `Last`, `Get`, `GetReverse`, `LowerBound`,
/// `ReverseLowerBound` and `LongestPrefix`).
#[derive(Clone, Copy, Debug, PartialEq, Eq)]
pub enum Ask {
    /// The first row.
    First,
    /// The last row.
    Last,
    /// All rows, in the order of their keys.
    Get,
    /// All rows, against the order of their keys.
    GetReverse,
    /// The rows of keys at least a key, in their order.
    Lower,
    /// The rows of keys at most a key, against their order.
    ReverseLower,
    /// The row of the longest key that is a prefix of a key.
    Longest,
}
