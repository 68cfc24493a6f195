//! Scalars.
ghost use Rattle.std.specs.Prelude.{◌≡◌, option_map};
ghost use Rattle.mdb_datum.specs.Datum.{doc_of};
ghost use Rattle.mdb_encode.specs.Kind.{scalar_doc};
ghost use Rattle.mdb_encode.specs.Lawful.{scalar_in};

use mdb_datum::{Datum, Text};

/// A document that is no list and no object.
#[derive(Drop)]
pub enum Scalar {
    /// `null`.
    Nil,
    /// `true` or `false`.
    Flag(bool),
    /// A number.
    Whole(i128),
    /// A string.
    Str(Text),
}

impl Scalar {
    /// The scalar that a document is, none where it is a list or an object.
    pub fn of(document: Datum) -> Option<Scalar>
        ensures { option_map scalar_doc result ≡ scalar_in (doc_of document) }
    {
        match document {
            Datum::Nil => Some(Scalar::Nil),
            Datum::Flag(flag) => Some(Scalar::Flag(flag)),
            Datum::Whole(number) => Some(Scalar::Whole(number)),
            Datum::Str(text) => Some(Scalar::Str(text)),
            Datum::Items(_) | Datum::Members(_) => None,
        }
    }
}
