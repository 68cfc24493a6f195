//! Wipes: the removal of all rows that a question lists.
ghost use Rattle.std.specs.Prelude.{◌≡◌, ◌⊎◌, ◌*◌, ◌^◌, Ok, List, IfErr};
ghost use Rattle.std.specs.Prelude.{MatchResult, OnOk, length};
ghost use Rattle.mdb_datum.specs.Row.{Fields};
ghost use Rattle.mdb_schema.specs.Wipe.{wiped_rows, wiped_rows_by_prefix};
ghost use Rattle.table_index.specs.Drawn.{HasDrawnCells, MayBeWritten};
ghost use Rattle.table_index.specs.Table.{AnswersTake, AnswersWipe, AreLeft, rows_asked};
ghost use Rattle.table_index.specs.Written.{Writes, rows_told};
ghost use Rattle.table_index.specs.declared.wipe_error.WipeError.TheVariants.{Memory};
ghost use Rattle.table_index.specs.inner.Drawn.{AreReady, HaveDrawn};
ghost use Rattle.table_index.specs.inner.IndexTrees.{AreTrees, nodes_of, rows_held};
ghost use Rattle.table_index.specs.inner.Wipes.{IsRefusedWipe, IsWiped, wants_memory};
ghost use Rattle.table_index.specs.inner.Writes.{WroteRows};

use crate::listed::wipe_listed;
use crate::table_txn::TableTxn;
use crate::wipe_error::WipeError;
use crate::wipe_rules::{check_prefix_name, wipe_target};
use mdb_schema::{Query, Rows, TableDef};
use radix_node::Ids;
use radix_txn::TreeTxn;
use std::alloc::Global;
use watch_word::Front;

impl TableTxn {
    /// Takes out each row that the `get` of a question's index and arguments lists, once, and gives
    /// them in the order of their first listing. A refusal changes nothing: that of the question,
    /// and that fewer than 2^26 ids are left for each row. It takes memory for the list of the
    /// rows, for copied nodes, each with a new cell, and, if there are other indexes, for the keys
    /// of one row at a time. It is refused for want of memory or of room to count one more owner of
    /// a node or row; that spoils the change. The index drops the subtree of the key at once; of
    /// other indexes each row's keys are taken out one by one. So it takes time in the number of
    /// the entries listed and, if there are other indexes, in the lengths of the keys of the rows,
    /// and it writes no others.
    pub fn take_all(
        &mut self,
        front: &Front,
        ids: &mut Ids,
        query: &Query,
    ) -> Result<Rows, WipeError>
        requires ready { MayBeWritten front.now ids.old self.old }
        ensures answers { AnswersTake ids.old.next
            (wiped_rows self.old.schema self.old.rows query.now) result self.old self.new }
        ensures drawn { HasDrawnCells front.now
            (2 ^ 26 * rows_asked (wiped_rows self.old.schema self.old.rows query.now))
            ids.old ids.new self.old self.new }
        ensures refused { IfErr result (λ e. (e ≡ Memory) ⊎ (ids.new ≡ ids.old)) }
        ensures written { OnOk result (Writes
            (rows_told (wiped_rows self.old.schema self.old.rows query.now)) self.old self.new) }
    {
        let alloc = *self.trees.allocator();
        let wiped = wipe_rows(alloc, &self.def, &mut self.trees, front, ids, query);
        match wiped {
            Ok(gone) => Ok(gone),
            Err(error) => {
                self.spoiled = wants_memory(&error);
                Err(error)
            }
        }
    }

    /// Does what [`TableTxn::take_all`] does, where the name of the index ends in `_prefix`; else
    /// it is refused, and nothing has changed.
    pub fn take_prefix(
        &mut self,
        front: &Front,
        ids: &mut Ids,
        query: &Query,
    ) -> Result<Rows, WipeError>
        requires ready { MayBeWritten front.now ids.old self.old }
        ensures answers { AnswersTake ids.old.next
            (wiped_rows_by_prefix self.old.schema self.old.rows query.now)
            result self.old self.new }
        ensures drawn { HasDrawnCells front.now
            (2 ^ 26 * rows_asked (wiped_rows_by_prefix self.old.schema self.old.rows query.now))
            ids.old ids.new self.old self.new }
        ensures refused { IfErr result (λ e. (e ≡ Memory) ⊎ (ids.new ≡ ids.old)) }
        ensures written { OnOk result (Writes
            (rows_told (wiped_rows_by_prefix self.old.schema self.old.rows query.now))
            self.old self.new) }
    {
        check_prefix_name(query)?;
        self.take_all(front, ids, query)
    }

    /// Does what [`TableTxn::take_all`] does, and gives the number of the rows.
    pub fn remove_all(
        &mut self,
        front: &Front,
        ids: &mut Ids,
        query: &Query,
    ) -> Result<u64, WipeError>
        requires ready { MayBeWritten front.now ids.old self.old }
        ensures answers { AnswersWipe ids.old.next
            (wiped_rows self.old.schema self.old.rows query.now) result self.old self.new }
        ensures drawn { HasDrawnCells front.now
            (2 ^ 26 * rows_asked (wiped_rows self.old.schema self.old.rows query.now))
            ids.old ids.new self.old self.new }
        ensures refused { IfErr result (λ e. (e ≡ Memory) ⊎ (ids.new ≡ ids.old)) }
        ensures written { OnOk result (Writes
            (rows_told (wiped_rows self.old.schema self.old.rows query.now)) self.old self.new) }
    {
        match self.take_all(front, ids, query) {
            Ok(gone) => Ok(gone.len() as u64),
            Err(error) => Err(error),
        }
    }

    /// Does what [`TableTxn::take_prefix`] does, and gives the number of the rows.
    pub fn remove_prefix(
        &mut self,
        front: &Front,
        ids: &mut Ids,
        query: &Query,
    ) -> Result<u64, WipeError>
        requires ready { MayBeWritten front.now ids.old self.old }
        ensures answers { AnswersWipe ids.old.next
            (wiped_rows_by_prefix self.old.schema self.old.rows query.now)
            result self.old self.new }
        ensures drawn { HasDrawnCells front.now
            (2 ^ 26 * rows_asked (wiped_rows_by_prefix self.old.schema self.old.rows query.now))
            ids.old ids.new self.old self.new }
        ensures refused { IfErr result (λ e. (e ≡ Memory) ⊎ (ids.new ≡ ids.old)) }
        ensures written { OnOk result (Writes
            (rows_told (wiped_rows_by_prefix self.old.schema self.old.rows query.now))
            self.old self.new) }
    {
        match self.take_prefix(front, ids, query) {
            Ok(gone) => Ok(gone.len() as u64),
            Err(error) => Err(error),
        }
    }
}

/// Whether a wipe found no memory.
fn wants_memory(error: &WipeError) -> bool
    ensures { result ≡ wants_memory error.now }
{
    matches!(error, WipeError::Memory)
}

/// Takes the rows that a question lists out of the trees, and gives them.
fn wipe_rows(
    alloc: Global,
    def: &TableDef,
    txns: &mut [TreeTxn],
    front: &Front,
    ids: &mut Ids,
    query: &Query,
) -> Result<Rows, WipeError>
    requires ready { AreReady front.now ids.old txns.old }
    requires held { AreTrees def.now (nodes_of txns.old) }
    ensures answers { let asked
        = wiped_rows def.now (rows_held def.now (nodes_of txns.old)) query.now in
        MatchResult result
        (λ taken. (gone : List Fields) × (asked ≡ Ok gone) × AreLeft ids.old.next (length gone)
        × IsWiped def.now gone taken txns.old txns.new)
        (λ e. IsRefusedWipe ids.old.next asked e txns.old txns.new) }
    ensures drawn { let asked
        = wiped_rows def.now (rows_held def.now (nodes_of txns.old)) query.now in
        HaveDrawn front.now (2 ^ 26 * rows_asked asked) ids.old ids.new txns.old txns.new }
    ensures refused { IfErr result (λ e. (e ≡ Memory) ⊎ (ids.new ≡ ids.old)) }
    ensures written { let asked
        = wiped_rows def.now (rows_held def.now (nodes_of txns.old)) query.now in
        OnOk result (WroteRows def.now (rows_told asked) txns.old txns.new) }
{
    let at = match wipe_target(alloc, def, query) {
        Ok(at) => at,
        Err(error) => return Err(error),
    };
    wipe_listed(alloc, def, txns, front, ids, at.place(), at.key())
}
