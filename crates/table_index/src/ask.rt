//! Questions of a table.
ghost use Rattle.std.specs.Prelude.{◌≡◌, false, MatchResult};
ghost use Rattle.mdb_schema.specs.Answer.{answer, ask_rows, is_exact};
ghost use Rattle.mdb_schema.specs.ErrorsTold.{AnswersAsk};
ghost use Rattle.mdb_schema.specs.declared.ask_error.AskError.TheVariants.{Memory};
ghost use Rattle.radix_node.specs.Cells.{plain_of};
ghost use Rattle.radix_node.specs.Nodes.{pairs_of};
ghost use Rattle.table_index.specs.inner.IndexTrees.{AreTrees, nodes_of, rows_held};

use crate::answer::answer_of;
use crate::lookup::{Target, lookup};
use crate::table::Table;
use crate::table_txn::TableTxn;
use crate::walk::walk_at;
use mdb_schema::question::{has_argument, is_prefix_name};
use mdb_schema::{Answer, AskError, IndexDef, Query, TableDef};
use radix_node::Tree;
use radix_txn::TreeTxn;
use std::alloc::Global;

impl Table {
    /// What a question is answered, or the first rule that it breaks; the name of its table isn't
    /// looked at. It takes memory for the key of its arguments and for a list of rows. Want of it,
    /// or of room to count one more owner of a row, is never told in place of a rule. It takes time
    /// in the length of the key and in the rows that it gives.
    pub fn ask(&self, query: &Query) -> Result<Answer, AskError>
        ensures { AnswersAsk (ask_rows self.now.schema self.now.rows query.now) result }
    {
        let alloc = *self.trees.allocator();
        match lookup(alloc, &self.def, query.ask(), query) {
            Ok(at) => answer_at(alloc, &self.trees[at.place()], &at, query),
            Err(error) => Err(error),
        }
    }
}

impl TableTxn {
    /// What a question is answered of the present rows, as [`Table::ask`] answers.
    pub fn ask(&mut self, query: &Query) -> Result<Answer, AskError>
        requires sound { self.old.spoiled ≡ false }
        ensures answers { AnswersAsk
            (ask_rows self.old.schema self.old.rows query.now) result }
        ensures unchanged { self.new ≡ self.old }
    {
        let alloc = *self.trees.allocator();
        ask_present(alloc, &self.def, &self.trees, query)
    }
}

/// What a question is answered from the present tree of the index where it looks.
fn ask_present(
    alloc: Global,
    def: &TableDef,
    txns: &[TreeTxn],
    query: &Query,
) -> Result<Answer, AskError>
    requires { AreTrees def.now (nodes_of txns.now) }
    ensures { AnswersAsk
        (ask_rows def.now (rows_held def.now (nodes_of txns.now)) query.now) result }
{
    match lookup(alloc, def, query.ask(), query) {
        // It isn't a tree that is given: the transaction's own nodes stay its own.
        Ok(at) => {
            let txn = &txns[at.place()];
            answer_at(alloc, txn.tree(), &at, query)
        }
        Err(error) => Err(error),
    }
}

/// What a question is answered from the tree of the index where it looks: the rows of the walk for
/// it.
pub(crate) fn answer_at(
    alloc: Global,
    tree: &Tree,
    at: &Target<'_>,
    query: &Query,
) -> Result<Answer, AskError>
    ensures { MatchResult result
        (λ a. a ≡ answer query.now.ask (is_exact at.now.index query.now)
        at.now.key (pairs_of (plain_of tree.now)))
        (λ e. e ≡ Memory) }
{
    let walk = walk_at(tree, at, query)?;
    Ok(answer_of(alloc, query.ask(), walk)?)
}

/// Whether a question asks for the entry of a very key, and not for those that begin with it.
pub(crate) fn is_exact(index: &IndexDef, query: &Query) -> bool
    ensures { result ≡ is_exact index.now query.now }
{
    index.unique() && !is_prefix_name(query.index().as_str()) && has_argument(query)
}
