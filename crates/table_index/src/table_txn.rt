//! A table that is being changed.
ghost use Rattle.std.specs.Prelude.{◌≡◌, false, IfOk};
ghost use Rattle.table_index.specs.Frozen.{AreFrozen};
ghost use Rattle.table_index.specs.Watched.{QuestionsHoldSince};
ghost use Rattle.table_index.specs.Written.{KeepsOthers};

use crate::notices::Notices;
use crate::table::Table;
use crate::trees::{frozen, standing};
use mdb_schema::TableDef;
use radix_txn::TreeTxn;
use std::alloc::AllocError;
use std::marker::Model;

/// A table that is being changed, seen as its rows, the tree of each index before the change and
/// now, with their cells, and whether it is spoiled.
#[derive(Drop)]
pub struct TableTxn {
    pub(crate) def: TableDef,
    pub(crate) trees: Vec<TreeTxn>,
    pub(crate) spoiled: bool,
}

impl Model for TableTxn {
    ghost use Rattle.table_index.specs.Table.{TableChange};
    ghost use Rattle.table_index.specs.Codes.{table_change_code};

    ghost Value = { TableChange };

    ghost coded = { table_change_code };

    ghost use Rattle.table_index.specs.inner.Views.{change_view, IsChange};

    ghost view = { change_view };

    ghost invariant = { IsChange };
}

impl TableTxn {
    /// Whether an earlier write found no memory.
    pub fn spoiled(&self) -> bool
        ensures { result ≡ self.now.spoiled }
    {
        self.spoiled
    }

    /// The present table, which later writes don't change. It takes memory for a list of the
    /// indexes, and time in their number.
    pub fn stand(&mut self) -> Result<Table, AllocError>
        requires sound { self.old.spoiled ≡ false }
        ensures table { IfOk result (λ t. t ≡ record {
          schema = self.old.schema;
          rows = self.old.rows;
          trees = self.old.trees;
        }) }
        ensures unchanged { self.new ≡ self.old }
    {
        let alloc = *self.trees.allocator();
        let trees = standing(alloc, &mut self.trees)?;
        Ok(Table {
            def: self.def.share()?,
            trees,
        })
    }

    /// The table that the change ends with, and the notices of the cells that are gone. What is
    /// watched in the table that it began with is in a notice, or it is as it was, and so is the
    /// answer that it watches; and all that the written keys don't touch is kept. It takes memory
    /// for two lists of the indexes, and time in their number; after an error the change is gone.
    pub fn freeze(self) -> Result<(Table, Notices), AllocError>
        requires sound { self.spoiled ≡ false }
        ensures table { IfOk result (λ r. r.0 ≡ record {
          schema = self.schema;
          rows = self.rows;
          trees = self.trees;
        }) }
        ensures frozen { IfOk result (λ r. AreFrozen r.1 self.start self.trees) }
        ensures kept { IfOk result (λ r. let table = r.0 in KeepsOthers self table.trees) }
        ensures questions { IfOk result (λ r. QuestionsHoldSince self r.0) }
    {
        // Brings the definition's laws into the proof of what holds for questions.
        let _ = self.def.len();
        let TableTxn { def, trees, .. } = self;
        let alloc = *trees.allocator();
        let (trees, notices) = frozen(alloc, trees)?;
        Ok((Table { def, trees }, notices))
    }
}
