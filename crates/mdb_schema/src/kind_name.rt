//! The kinds of indexers, by their names in a schema file.
ghost use Rattle.std.specs.Prelude.{◌≡◌};
ghost use Rattle.mdb_schema.specs.KindName.{kind_named};

/// A kind of indexer.
#[derive(Clone, Copy)]
pub(crate) enum KindName {
    /// `text`.
    Text,
    /// `text_list`.
    TextList,
    /// `text_map`.
    TextMap,
    /// `uint`.
    Uint,
    /// `int`.
    Int,
    /// `bool`.
    Bool,
    /// `uuid`.
    Uuid,
    /// `field_set`.
    FieldSet,
    /// `conditional`.
    Conditional,
    /// `compound`.
    Compound,
}

/// The kind of this name.
pub(crate) fn kind_named(word: &str) -> Option<KindName>
    ensures { result ≡ kind_named word.now }
{
    Some(match word {
        "text" => KindName::Text,
        "text_list" => KindName::TextList,
        "text_map" => KindName::TextMap,
        "uint" => KindName::Uint,
        "int" => KindName::Int,
        "bool" => KindName::Bool,
        "uuid" => KindName::Uuid,
        "field_set" => KindName::FieldSet,
        "conditional" => KindName::Conditional,
        "compound" => KindName::Compound,
        _ => return None,
    })
}
