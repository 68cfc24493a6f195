//! Walks over the rows of a table.
ghost use Rattle.std.specs.Prelude.{◌≡◌, IfOk, MatchResult, option_copied};
ghost use Rattle.mdb_datum.specs.Pairs.{first_item, last_item};
ghost use Rattle.mdb_schema.specs.Answer.{answer, ask_rows, is_exact, picked};
ghost use Rattle.mdb_schema.specs.declared.ask_error.AskError.TheVariants.{Memory};
ghost use Rattle.radix_node.specs.Cells.{plain_of};
ghost use Rattle.radix_node.specs.Nodes.{pairs_of};
ghost use Rattle.table_index.specs.Walks.{WalksAsk, answer_rows};

use crate::ask::is_exact;
use crate::lookup::{Target, lookup};
use crate::table::Table;
use mdb_datum::Row;
use mdb_schema::{Ask, AskError, Query};
use radix_iter::{Walk, ascend, descend, down_from, first, from_key, last, one};
use radix_node::Tree;
use std::alloc::AllocError;

impl Table {
    /// A walk over the rows that [`Table::ask`] gives, in the same order. It is refused as
    /// [`Table::ask`] is. It takes memory for the key of the question's arguments and for its
    /// place.
    pub fn walk<'a>(&'a self, query: &Query) -> Result<Walk<'a>, AskError>
        ensures { WalksAsk (ask_rows self.now.schema self.now.rows query.now) result }
    {
        let alloc = *self.trees.allocator();
        match lookup(alloc, &self.def, query.ask(), query) {
            Ok(at) => walk_at(&self.trees[at.place()], &at, query),
            Err(error) => Err(error),
        }
    }
}

/// A walk over the rows that a question is answered from the tree of the index where it looks.
pub(crate) fn walk_at<'a>(
    tree: &'a Tree,
    at: &Target<'_>,
    query: &Query,
) -> Result<Walk<'a>, AskError>
    ensures { MatchResult result
        (λ w. w ≡ answer_rows (answer query.now.ask (is_exact at.now.index query.now)
        at.now.key (pairs_of (plain_of tree.now))))
        (λ e. e ≡ Memory) }
{
    let exact = is_exact(at.index(), query);
    Ok(walk_of(tree, query.ask(), exact, at.key())?)
}

/// A walk over the rows that a question of these words is answered from the tree of an index.
fn walk_of<'a>(tree: &'a Tree, ask: Ask, exact: bool, key: &[u8]) -> Result<Walk<'a>, AllocError>
    ensures { IfOk result
        (λ w. w ≡ answer_rows (answer ask exact key.now (pairs_of (plain_of tree.now)))) }
{
    match ask {
        Ask::First => Ok(one(first_row(tree, exact, key))),
        Ask::Last => Ok(one(last_row(tree, exact, key))),
        Ask::Get => ascend(tree, key),
        Ask::GetReverse => descend(tree, key),
        Ask::Lower => from_key(tree, key),
        Ask::ReverseLower => down_from(tree, key),
        Ask::Longest => Ok(one(tree.longest(key))),
    }
}

/// The first row of a key, or of the keys that begin with it.
fn first_row<'a>(tree: &'a Tree, exact: bool, key: &[u8]) -> Option<&'a Row>
    ensures { option_copied result
        ≡ first_item (picked exact key.now (pairs_of (plain_of tree.now))) }
{
    if exact {
        tree.get(key)
    } else {
        first(tree, key)
    }
}

/// The last row of a key, or of the keys that begin with it.
fn last_row<'a>(tree: &'a Tree, exact: bool, key: &[u8]) -> Option<&'a Row>
    ensures { option_copied result
        ≡ last_item (picked exact key.now (pairs_of (plain_of tree.now))) }
{
    if exact {
        tree.get(key)
    } else {
        last(tree, key)
    }
}
