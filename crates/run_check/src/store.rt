//! All that has stood in the tables of a schema.
ghost use Rattle.std.specs.Prelude.{◌≡◌, ◌<◌, IfOk, length, map};
ghost use Rattle.mdb_schema.specs.LawfulSchema.{IsLawfulSchema};
ghost use Rattle.run_check.specs.inner.StoreView.{empty_indexes, indexes_at, indexes_of};

use crate::index::Index;
use mdb_schema::{Schema, TableDef};
use std::alloc::{AllocError, Global};

/// The indexes of each table, by their places in the schema.
#[derive(Drop)]
pub(crate) struct Store {
    pub(crate) tables: Vec<Vec<Index>>,
}

impl Store {
    /// Nothing has stood in any table.
    pub(crate) fn new(alloc: Global, schema: &Schema) -> Result<Store, AllocError>
        ensures empty { IfOk result (λ st. indexes_of st ≡ map empty_indexes schema.now) }
        ensures lawful { IfOk result (λ st. IsLawfulSchema schema.now) }
    {
        let mut tables = Vec::new(alloc);
        'tables: for at in 0..schema.len() {
            let Some(def) = schema.table(at) else {
                unreachable!();
            };
            tables.push(empty_table(alloc, def)?)?;
        }
        Ok(Store { tables })
    }

    /// The indexes of the table at a place.
    pub(crate) fn table(&self, at: usize) -> &[Index]
        requires { at < length self.now.tables.items }
        ensures { result.now ≡ indexes_at self.now at }
    {
        &self.tables[at]
    }
}

/// The indexes of a table, in which nothing has stood.
fn empty_table(alloc: Global, def: &TableDef) -> Result<Vec<Index>, AllocError>
    ensures { IfOk result (λ v. v.items ≡ empty_indexes def.now) }
{
    let mut indexes = Vec::new(alloc);
    'indexes: while indexes.len() < def.len() {
        indexes.push(Index::new(alloc))?;
    }
    Ok(indexes)
}
