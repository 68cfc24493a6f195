//! Indexes of a table.
ghost use Rattle.std.specs.Prelude.{◌≡◌};
ghost use Rattle.mdb_encode.specs.Kind.{indexer_of};
ghost use Rattle.mdb_schema.specs.LawfulSchema.{IsLawfulIndex};

use mdb_datum::Text;
use mdb_encode::Kind;
use std::marker::Model;

/// An index of a table, seen as an `IndexSchema`: its name, its rules, and how its keys are made.
/// It is lawful by its type, which `name` tells.
#[derive(Drop)]
pub struct IndexDef {
    name: Text,
    unique: bool,
    allow_missing: bool,
    kind: Kind,
}

impl Model for IndexDef {
    ghost use Rattle.mdb_schema.specs.LawfulSchema.{IsLawfulIndex};
    ghost use Rattle.mdb_schema.specs.Schema.{IndexSchema};
    ghost use Rattle.mdb_schema.specs.Codes.{index_code};

    ghost Value = { IndexSchema };

    ghost coded = { index_code };

    ghost use Rattle.mdb_schema.specs.inner.IndexView.{index_view};

    ghost view = { index_view };

    ghost invariant = { λ d. IsLawfulIndex (index_view d) };
}

impl IndexDef {
    /// An index of these parts.
    pub(crate) fn of(name: Text, unique: bool, allow_missing: bool, kind: Kind) -> IndexDef
        requires { IsLawfulIndex (record {
          name = name;
          unique = unique;
          allow_missing = allow_missing;
          indexer = indexer_of kind;
        }) }
        ensures { result ≡ record {
          name = name;
          unique = unique;
          allow_missing = allow_missing;
          indexer = indexer_of kind;
        } }
    {
        IndexDef {
            name,
            unique,
            allow_missing,
            kind,
        }
    }

    /// The index's name.
    pub fn name(&self) -> &Text
        ensures name { result.now ≡ self.now.name }
        ensures lawful { IsLawfulIndex self.now }
    {
        &self.name
    }

    /// Whether no two rows may have the same key.
    pub fn unique(&self) -> bool
        ensures { result ≡ self.now.unique }
    {
        self.unique
    }

    /// Whether a row may have no key.
    pub fn allow_missing(&self) -> bool
        ensures { result ≡ self.now.allow_missing }
    {
        self.allow_missing
    }

    /// How the keys are made.
    pub fn kind(&self) -> &Kind
        ensures indexer { indexer_of result.now ≡ self.now.indexer }
    {
        &self.kind
    }
}
