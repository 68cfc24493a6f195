//! A table.
ghost use Rattle.std.specs.Prelude.{◌≡◌, ◌+◌, ◌≤◌, ◌^◌, [], IfOk, OnOk};
ghost use Rattle.table_index.specs.Drawn.{HasNewCells};

use crate::trees::empty_trees;
use mdb_schema::TableDef;
use radix_node::{Ids, Tree};
use std::alloc::{AllocError, Global};
use std::marker::Model;
use watch_word::Front;

/// A table, seen as what the schema says of it, its rows, rising by `id` key, and the tree of each
/// index with its cells. It never changes.
#[derive(Drop)]
pub struct Table {
    pub(crate) def: TableDef,
    pub(crate) trees: Vec<Tree>,
}

impl Model for Table {
    ghost use Rattle.table_index.specs.Table.{TableRows};
    ghost use Rattle.table_index.specs.Codes.{table_rows_code};

    ghost Value = { TableRows };

    ghost coded = { table_rows_code };

    ghost use Rattle.table_index.specs.inner.Views.{table_view, IsTable};

    ghost view = { table_view };

    ghost invariant = { IsTable };
}

impl Table {
    /// What the schema says of it.
    pub fn def(&self) -> &TableDef
        ensures { result.now ≡ self.now.schema }
    {
        &self.def
    }

    /// A table without rows. It takes memory for an empty tree an index, and an id for the cell of
    /// its root; there are at most 32.
    pub fn empty(
        alloc: Global,
        def: &TableDef,
        front: &Front,
        ids: &mut Ids,
    ) -> Result<Table, AllocError>
        requires book { front.now.book ≡ ids.old.book }
        requires left { ids.old.next + 32 ≤ 2 ^ 63 }

        ensures table { IfOk result
            (λ t. t ≡ record { schema = def.now; rows = []; trees = t.trees }) }
        ensures cells { IfOk result (λ t. HasNewCells front.now ids.old ids.new t.trees) }
        ensures book { ids.new.book ≡ ids.old.book }
        ensures later { ids.old.next ≤ ids.new.next }
        ensures few { OnOk result (ids.new.next ≤ ids.old.next + 32) }
    {
        let trees = empty_trees(alloc, def.len(), front, ids)?;
        Ok(Table {
            def: def.share()?,
            trees,
        })
    }
}
