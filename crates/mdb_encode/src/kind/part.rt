//! Kinds of at most one key.

use super::{Field, Scalar, Width};

/// How an index makes at most one key from one member of a row, alone or as a part of a compound
/// index.
#[derive(Drop)]
pub enum Part {
    /// A text, followed by the byte 00.
    Str { field: Field, lowercase: bool },
    /// A number from 0 on, with the most significant byte first.
    Uint { field: Field, width: Width },
    /// A number of either sign, with the most significant byte first and the sign bit turned.
    Sint { field: Field, width: Width },
    /// A truth value, as the byte 01 or 00.
    Flag { field: Field },
    /// The 16 bytes of a hyphenated UUID (RFC 9562).
    Uuid { field: Field },
    /// Whether the member is there and stands for something, as the byte 01 or 00.
    IsSet { field: Field },
    /// Whether the member equals a scalar, as the byte 01 or 00.
    Equals { field: Field, scalar: Scalar },
}
