//! How an index makes its keys. A kind that exists is one that a schema may name, by the types of
//! what it is made of.

mod field;
mod part;
mod parts;
mod scalar;
mod width;

pub use self::field::Field;
pub use self::part::Part;
pub use self::parts::Parts;
pub use self::scalar::Scalar;
pub use self::width::Width;

/// How an index makes its keys from one member of a row, or from several.
///
/// With `lowercase` the ASCII letters `A` to `Z` of every text are folded before they are used, in
/// rows and in arguments.
#[derive(Drop)]
pub enum Kind {
    /// At most one key, from one member.
    Part(Part),
    /// A key for each text of a list.
    StrList { field: Field, lowercase: bool },
    /// A key for each member of an object of texts: its name and its text.
    StrMap { field: Field, lowercase: bool },
    /// The keys of several parts, joined. With `allow_missing` the key ends at a missing part.
    Compound { parts: Parts, allow_missing: bool },
}
