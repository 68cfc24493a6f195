//! What a commit changes in tracked tables.
ghost use Rattle.std.specs.Prelude.{◌≡◌, ◌++◌, [], OnOk, length, map, option_copied, slice_get};
ghost use Rattle.mdb_schema.specs.Net as model;

use mdb_datum::Row;
use std::alloc::{AllocError, Global};
use std::marker::Model;
use table_index::{Net, NetList};

/// What became of a row of a tracked table: the table's place in the schema, the row before and the
/// row after, of which one may be missing.
#[derive(Drop)]
pub struct Change {
    table: u32,
    net: Net,
}

impl Model for Change {
    ghost use Rattle.mdb_schema.specs.Net as model;
    ghost use Rattle.mem_txn.specs.inner.StoredChange.{change_code};

    ghost Value = { model.Change };

    ghost coded = { change_code };

    ghost use Rattle.mem_txn.specs.inner.StoredChange.{change_view};

    ghost view = { change_view };
}

impl Change {
    /// The table's place in the schema, counted from 0.
    pub fn table(&self) -> u32
        ensures { result ≡ self.now.table }
    {
        self.table
    }

    /// The row before, if there was one.
    pub fn before(&self) -> Option<&Row>
        ensures { option_copied result ≡ self.now.before }
    {
        self.net.before()
    }

    /// The row after, if there is one.
    pub fn after(&self) -> Option<&Row>
        ensures { option_copied result ≡ self.now.after }
    {
        self.net.after()
    }
}

/// What a commit changes in tracked tables: table by table in the schema's order, and in each
/// rising by `id` key. A row that is replaced by one with the same members isn't there.
#[derive(Drop)]
pub struct ChangeList {
    list: Vec<Change>,
}

impl Model for ChangeList {
    ghost use Rattle.std.specs.Prelude.{List};
    ghost use Rattle.std.specs.Coded.{coded_list};
    ghost use Rattle.mdb_schema.specs.Net as model;
    ghost use Rattle.mem_txn.specs.inner.StoredChange.{change_code};

    ghost Value = { List model.Change };

    ghost coded = { coded_list change_code };

    ghost view = { λ c. c.list.items };
}

impl ChangeList {
    /// No changes. It takes no memory.
    pub(crate) fn new(alloc: Global) -> ChangeList
        ensures { result ≡ [] }
    {
        ChangeList {
            list: Vec::new(alloc),
        }
    }

    /// Adds at the end what became of the rows of the table at a place.
    pub(crate) fn add(&mut self, table: u32, nets: NetList) -> Result<(), AllocError>
        ensures { OnOk result (self.new ≡ self.old ++ map (model.change_at table) nets) }
    {
        for net in nets.into_vec() {
            self.list.push(Change { table, net })?;
        }
        Ok(())
    }

    /// How many changes there are.
    pub fn len(&self) -> usize
        ensures { result ≡ length self.now }
    {
        self.list.len()
    }

    /// The change at a place, counted from 0, if there is such a place.
    pub fn get(&self, at: usize) -> Option<&Change>
        ensures { option_copied result ≡ slice_get self.now at }
    {
        self.list.get(at)
    }
}
