//! The rules of a schema file.
ghost use Rattle.std.specs.Prelude.{◌≡◌};

/// What a schema file breaks. The rule that is answered is the first that a reading of the file,
/// from its whole to its tables, their indexes and the parts of these, finds broken.
#[derive(Clone, Copy, Debug, PartialEq, Eq)]
pub enum SchemaRule {
    /// The bytes are no document.
    Syntax,
    /// A part of the document has other members than it should, or members of another form.
    BadShape,
    /// `memdb` is another number than 1 and 2.
    BadVersion,
    /// There is no table.
    NoTables,
    /// There are more than 64 tables.
    TooManyTables,
    /// The name of a table or of an index may not be declared.
    BadName,
    /// A table has no index.
    NoIndexes,
    /// A table has more than 32 indexes.
    TooManyIndexes,
    /// A table has no index `id`.
    NoId,
    /// An indexer's `kind` is no kind.
    UnknownKind,
    /// A number's width in bytes is none of 1, 2, 4 and 8.
    BadWidth,
    /// A compound indexer has no parts.
    EmptyCompound,
    /// A part of a compound indexer can have several keys, or has parts of its own.
    BadPart,
    /// The index `id` can have several keys.
    IdMulti,
    /// The index `id` isn't unique.
    IdNotUnique,
    /// The index `id` allows that its key is missing.
    IdAllowsMissing,
}

impl SchemaRule {
    ghost use Rattle.mdb_schema.specs.RuleWord.{schema_rule_word};

    /// The rule's name as it is printed: lower case, its words joined by dashes.
    pub fn word(self) -> &'static str
        ensures { result.now ≡ schema_rule_word self }
    {
        match self {
            SchemaRule::Syntax => "syntax",
            SchemaRule::BadShape => "bad-shape",
            SchemaRule::BadVersion => "bad-version",
            SchemaRule::NoTables => "no-tables",
            SchemaRule::TooManyTables => "too-many-tables",
            SchemaRule::BadName => "bad-name",
            SchemaRule::NoIndexes => "no-indexes",
            SchemaRule::TooManyIndexes => "too-many-indexes",
            SchemaRule::NoId => "no-id",
            SchemaRule::UnknownKind => "unknown-kind",
            SchemaRule::BadWidth => "bad-width",
            SchemaRule::EmptyCompound => "empty-compound",
            SchemaRule::BadPart => "bad-part",
            SchemaRule::IdMulti => "id-multi",
            SchemaRule::IdNotUnique => "id-not-unique",
            SchemaRule::IdAllowsMissing => "id-allows-missing",
        }
    }
}
