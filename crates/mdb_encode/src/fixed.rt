//! Values whose keys have a small number of bytes.
ghost use Rattle.std.specs.Prelude.{◌≡◌, ◌≤◌, length};

use crate::Width;

/// A number that is written in so many bytes.
#[derive(Clone, Copy)]
pub(crate) struct Number {
    /// The number.
    pub(crate) number: u64,
    /// How many bytes it is written in.
    pub(crate) width: Width,
}

/// The bytes of a UUID.
#[derive(Clone, Copy)]
pub(crate) struct Id {
    /// The bytes, in the order of the text.
    pub(crate) bytes: [u8; 16],
    ghost whole: { length bytes ≡ 16 },
}

/// The first bytes of a UUID, of which `len` are meant. Room for 18, since 36 digits without
/// hyphens are read as a start too.
#[derive(Clone, Copy)]
pub(crate) struct Start {
    /// The bytes, in the order of the text.
    pub(crate) bytes: [u8; 18],
    /// How many of them are meant.
    pub(crate) len: usize,
    ghost whole: { length bytes ≡ 18 },
    ghost within: { len ≤ 18 },
}
