//! Rows found in the trees of a table.
ghost use Rattle.std.specs.Prelude.{◌≡◌, Ok, MatchResult, option_copied};
ghost use Rattle.mdb_schema.specs.State.{row_at};
ghost use Rattle.mdb_schema.specs.Write.{id_of};
ghost use Rattle.table_index.specs.declared.wipe_error.WipeError.TheVariants.{Memory};
ghost use Rattle.table_index.specs.inner.IndexTrees.{AreSound, AreTrees, nodes_of, rows_held};
ghost use Rattle.table_index.specs.inner.Wipes.{IsStored};

use crate::id_key::IdKey;
use crate::refusal::of_stored;
use crate::row_keys::{id_key_of, id_place};
use crate::wipe_error::WipeError;
use mdb_datum::Row;
use mdb_schema::TableDef;
use radix_txn::TreeTxn;
use std::alloc::Global;

/// The `id` key of a row that stands in a table. It takes memory for the row's keys in the index
/// `id`.
pub(crate) fn stored_id(alloc: Global, def: &TableDef, row: &Row) -> Result<IdKey, WipeError>
    requires { IsStored def.now row.now }
    ensures { MatchResult result (λ id. id_of def.now row.now ≡ Ok id) (λ e. e ≡ Memory) }
{
    // The definition is lawful by its type.
    let _ = def.len();
    match id_key_of(alloc, def, row) {
        Ok(id) => Ok(id),
        Err(error) => Err(of_stored(error)),
    }
}

/// The row of an `id` key, found in the tree of the index `id`.
pub(crate) fn row_at<'a>(def: &TableDef, txns: &'a [TreeTxn], id: &IdKey) -> Option<&'a Row>
    requires sound { AreSound txns.now }
    requires held { AreTrees def.now (nodes_of txns.now) }
    ensures { option_copied result
        ≡ row_at def.now id.now (rows_held def.now (nodes_of txns.now)) }
{
    // The definition is lawful by its type.
    let _ = def.len();
    let place = id_place(def);
    let txn = &txns[place];
    txn.get(id.bytes())
}
