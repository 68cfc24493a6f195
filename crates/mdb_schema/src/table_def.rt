//! Tables of a schema.
ghost use Rattle.std.specs.Prelude.{◌≡◌, IfOk, IfSome, length, option_copied, slice_get};
ghost use Rattle.mdb_schema.specs.LawfulSchema.{IsLawfulIndex, IsLawfulTable};
ghost use Rattle.mdb_schema.specs.Schema.{index_place};

use crate::index_def::IndexDef;
use mdb_datum::Text;
use std::alloc::{AllocError, Global};
use std::marker::Model;
use std::sync::Arc;

/// A table, seen as a `TableSchema`: its name, whether it is tracked, and its indexes, which stand in
/// byte order of their names. It is lawful by its type, which `len` tells.
/// It is shared by the schema and the tables that are made of it, and never changes.
#[derive(Drop)]
pub struct TableDef {
    parts: Arc<TableParts, Global>,
}

/// What a table's definition shares.
#[derive(Drop)]
struct TableParts {
    name: Text,
    tracked: bool,
    indexes: Vec<IndexDef>,
}

impl Model for TableDef {
    ghost use Rattle.mdb_schema.specs.LawfulSchema.{IsLawfulTable};
    ghost use Rattle.mdb_schema.specs.Schema.{TableSchema};
    ghost use Rattle.mdb_schema.specs.Codes.{table_code};

    ghost Value = { TableSchema };

    ghost coded = { table_code };

    ghost use Rattle.mdb_schema.specs.inner.TableView.{table_view};

    ghost view = { table_view };

    ghost invariant = { λ d. IsLawfulTable (table_view d) };
}

impl TableDef {
    /// A table of these parts. It takes memory for what is shared.
    pub(crate) fn of(
        alloc: Global,
        name: Text,
        tracked: bool,
        indexes: Vec<IndexDef>,
    ) -> Result<TableDef, AllocError>
        requires { IsLawfulTable (record {
          name = name;
          tracked = tracked;
          indexes = indexes.items;
        }) }
        ensures { IfOk result (λ t. t
            ≡ record { name = name; tracked = tracked; indexes = indexes.items }) }
    {
        let parts = TableParts {
            name,
            tracked,
            indexes,
        };
        Ok(TableDef {
            parts: Arc::new(alloc, parts)?,
        })
    }

    /// A second owner of the same definition. It takes no memory. `AllocError` comes where `Arc`
    /// refuses one more owner.
    pub fn share(&self) -> Result<TableDef, AllocError>
        ensures { IfOk result (λ t. t ≡ self.now) }
    {
        Ok(TableDef {
            parts: Arc::try_clone(&self.parts)?,
        })
    }

    /// The table's name.
    pub fn name(&self) -> &Text
        ensures { result.now ≡ self.now.name }
    {
        &self.parts.name
    }

    /// Whether the table is tracked, as one whose changes are told. In version 1 of the format none
    /// is.
    pub fn tracked(&self) -> bool
        ensures { result ≡ self.now.tracked }
    {
        self.parts.tracked
    }

    /// How many indexes there are.
    pub fn len(&self) -> usize
        ensures count { result ≡ length self.now.indexes }
        ensures lawful { IsLawfulTable self.now }
    {
        self.parts.indexes.len()
    }

    /// The index at a place, counted from 0.
    pub fn index(&self, at: usize) -> Option<&IndexDef>
        ensures found { option_copied result ≡ slice_get self.now.indexes at }
        ensures lawful { IfSome result (λ index. IsLawfulIndex index.now) }
    {
        self.parts.indexes.get(at)
    }

    /// The place of the index of a name. It takes time in the logarithm of the number of indexes.
    pub fn find(&self, name: &str) -> Option<usize>
        ensures { result ≡ index_place name.now self.now.indexes }
    {
        let name = name.as_bytes();
        self.parts
            .indexes
            .binary_search_by(|index| index.name().as_str().as_bytes().cmp(&name))
            .ok()
    }
}
