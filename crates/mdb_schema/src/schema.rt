//! Schemas.
ghost use Rattle.std.specs.Prelude.{◌≡◌, IfSome, length, option_copied, slice_get};
ghost use Rattle.mdb_schema.specs.LawfulSchema.{IsLawfulSchema, IsLawfulTable};
ghost use Rattle.mdb_schema.specs.Schema.{table_place};

use crate::table_def::TableDef;
use std::marker::Model;

/// A schema, seen as a `DbSchema`: its tables, which stand in byte order of their names. It never
/// changes. It is lawful by its type, which `len` tells.
#[derive(Drop)]
pub struct Schema {
    tables: Vec<TableDef>,
}

impl Model for Schema {
    ghost use Rattle.mdb_schema.specs.LawfulSchema.{IsLawfulSchema};
    ghost use Rattle.mdb_schema.specs.Schema.{DbSchema};
    ghost use Rattle.mdb_schema.specs.Codes.{schema_code};

    ghost Value = { DbSchema };

    ghost coded = { schema_code };

    ghost view = { λ s. s.tables.items };

    ghost invariant = { λ s. IsLawfulSchema s.tables.items };
}

impl Schema {
    /// A schema of these tables.
    pub(crate) fn of(tables: Vec<TableDef>) -> Schema
        requires { IsLawfulSchema tables.items }
        ensures { result ≡ tables.items }
    {
        Schema { tables }
    }

    /// How many tables there are.
    pub fn len(&self) -> usize
        ensures count { result ≡ length self.now }
        ensures lawful { IsLawfulSchema self.now }
    {
        self.tables.len()
    }

    /// The table at a place, counted from 0.
    pub fn table(&self, at: usize) -> Option<&TableDef>
        ensures found { option_copied result ≡ slice_get self.now at }
        ensures lawful { IfSome result (λ table. IsLawfulTable table.now) }
    {
        self.tables.get(at)
    }

    /// The place of the table of a name. It takes time in the logarithm of the number of tables.
    pub fn find(&self, name: &str) -> Option<usize>
        ensures { result ≡ table_place name.now self.now }
    {
        let name = name.as_bytes();
        self.tables
            .binary_search_by(|table| table.name().as_str().as_bytes().cmp(&name))
            .ok()
    }
}
