//! The start of a change.
ghost use Rattle.std.specs.Prelude.{◌≡◌, false, IfOk};

use crate::table::Table;
use crate::table_txn::TableTxn;
use crate::trees::begin;
use std::alloc::AllocError;

impl Table {
    /// A change that begins with this table, which stays as it is. It takes memory for a list of
    /// its indexes, and time in their number.
    pub fn txn(&self) -> Result<TableTxn, AllocError>
        ensures { IfOk result (λ t. t ≡ record {
          schema = self.now.schema;
          rows = self.now.rows;
          start = self.now.trees;
          trees = self.now.trees;
          spoiled = false;
        }) }
    {
        let alloc = *self.trees.allocator();
        Ok(TableTxn {
            def: self.def.share()?,
            trees: begin(alloc, &self.trees)?,
            spoiled: false,
        })
    }
}
