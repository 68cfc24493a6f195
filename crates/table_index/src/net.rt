//! What differs between two tables.
ghost use Rattle.std.specs.Prelude.{◌≡◌, ◌++◌, ◌∷◌, [], IfOk, OnOk, length, option_copied, slice_get};
ghost use Rattle.mdb_schema.specs.Net as model;
ghost use Rattle.table_index.specs.Shared.{AllCellsTell};

use crate::net_walk::net_of_trees;
use crate::row_keys::id_place;
use crate::table::Table;
use mdb_datum::Row;
use std::alloc::{AllocError, Global};
use std::marker::Model;

/// What became of the row of an `id` key: the row before and the row after, of which one may be
/// missing.
#[derive(Drop)]
pub struct Net {
    before: Option<Row>,
    after: Option<Row>,
}

impl Model for Net {
    ghost use Rattle.mdb_schema.specs.Net as model;
    ghost use Rattle.table_index.specs.inner.StoredNet.{net_code};

    ghost Value = { model.Net };

    ghost coded = { net_code };

    ghost use Rattle.table_index.specs.inner.StoredNet.{net_view};

    ghost view = { net_view };
}

impl Net {
    /// The row before, if there was one.
    pub fn before(&self) -> Option<&Row>
        ensures { option_copied result ≡ self.now.before }
    {
        self.before.as_ref()
    }

    /// The row after, if there is one.
    pub fn after(&self) -> Option<&Row>
        ensures { option_copied result ≡ self.now.after }
    {
        self.after.as_ref()
    }
}

/// What differs between two tables of one definition, rising by `id` key. It shares the rows.
#[derive(Drop)]
pub struct NetList {
    list: Vec<Net>,
}

impl Model for NetList {
    ghost use Rattle.std.specs.Prelude.{List};
    ghost use Rattle.std.specs.Coded.{coded_list};
    ghost use Rattle.mdb_schema.specs.Net as model;
    ghost use Rattle.table_index.specs.inner.StoredNet.{net_code};

    ghost Value = { List model.Net };

    ghost coded = { coded_list net_code };

    ghost view = { λ n. n.list.items };
}

impl NetList {
    /// Nothing that differs. It takes no memory.
    pub(crate) fn new(alloc: Global) -> NetList
        ensures { result ≡ [] }
    {
        NetList {
            list: Vec::new(alloc),
        }
    }

    /// Adds at the end what became of a row. It shares the rows.
    pub(crate) fn push(
        &mut self,
        before: Option<&Row>,
        after: Option<&Row>,
    ) -> Result<(), AllocError>
        ensures { OnOk result (self.new ≡ self.old ++ record {
          before = option_copied before.entry;
          after = option_copied after.entry;
        } ∷ []) }
    {
        let net = Net {
            before: shared(before)?,
            after: shared(after)?,
        };
        self.list.push(net)?;
        Ok(())
    }

    /// Its items, in order. It takes no memory.
    pub fn into_vec(self) -> Vec<Net>
        ensures { result.items ≡ self }
    {
        self.list
    }

    /// How many rows differ.
    pub fn len(&self) -> usize
        ensures { result ≡ length self.now }
    {
        self.list.len()
    }

    /// What became of a row, at a place counted from 0, if there is such a place.
    pub fn get(&self, at: usize) -> Option<&Net>
        ensures { option_copied result ≡ slice_get self.now at }
    {
        self.list.get(at)
    }
}

impl Table {
    /// What differs between this table and a newer one of the same definition, which came of it by
    /// a change. What both share is passed over: it takes time in the number of rows that differ,
    /// the depth of the tree and the edges at each of its nodes there, and memory for the list and
    /// two places in the trees. It is refused only for want of memory, or of room to count one more
    /// owner of a row.
    pub fn net(&self, newer: &Table) -> Result<NetList, AllocError>
        requires schema { newer.now.schema ≡ self.now.schema }
        requires cells { AllCellsTell self.now.trees newer.now.trees }
        ensures { IfOk result (λ n. n ≡ model.net self.now.schema self.now.rows newer.now.rows) }
    {
        // Brings the definition's laws into the proof.
        let _ = self.def.len();
        let alloc = *self.trees.allocator();
        let place = id_place(&self.def);
        let old = &self.trees[place];
        let new = &newer.trees[place];
        net_of_trees(alloc, old, new)
    }
}

/// A second owner of a row, if there is one.
fn shared(row: Option<&Row>) -> Result<Option<Row>, AllocError>
    ensures { IfOk result (λ r. r ≡ option_copied row.entry) }
{
    match row {
        Some(row) => Ok(Some(row.share()?)),
        None => Ok(None),
    }
}
