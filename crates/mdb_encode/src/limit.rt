//! The limits of keys.

/// The greatest number of keys of a row in one index.
pub(crate) const MOST_KEYS: usize = 256;

/// The greatest number of bytes of a key.
pub(crate) const LONGEST_KEY: usize = 1024;
