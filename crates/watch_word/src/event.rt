//! The entries of the log.

/// What the log of a book records, in proofs alone: no value of this type is kept.
#[derive(Clone, Copy)]
pub(crate) enum Event {
    /// The word of the cell with this key is ready, and the cell has this id.
    Home(u64, u64),
    /// The cell with this key has fired, by the commit with this number.
    Fired(u64, u64),
}
