//! Questions that are watched.
ghost use Rattle.std.specs.Prelude.{◌≡◌, ◌<◌, Some, IfOk, MatchResult, length};
ghost use Rattle.std.specs.Arc.{arc_value};
ghost use Rattle.mdb_schema.specs.Answer.{answer, ask_rows, is_exact};
ghost use Rattle.mdb_schema.specs.declared.ask_error.AskError.TheVariants.{Memory};
ghost use Rattle.radix_node.specs.Cells.{plain_of};
ghost use Rattle.radix_node.specs.Nodes.{pairs_of};
ghost use Rattle.table_index.specs.Watched.{AnswersWatch, IsSpot, cell_of, is_watchable};
ghost use Rattle.table_index.specs.Watched.{looks_up, watch_in};
ghost use Rattle.table_index.specs.inner.Lookups.{IsSpotIn};

use crate::ask::{answer_at, is_exact};
use crate::lookup::{Target, lookup};
use crate::row_keys::told_place;
use crate::table::Table;
use crate::watched::{Spot, Watched};
use mdb_schema::{Answer, Ask, AskError, Query, TableDef};
use radix_node::Tree;
use std::alloc::{AllocError, Global};
use std::sync::Arc;
use watch_word::{Watch, WatchCell};

impl Table {
    /// What [`Table::ask`] answers, with the watch of the answer: the cell of the leaf, or of the
    /// node where the key leaves the tree. Questions for bounds, or for the longest key, are
    /// refused before any other rule. It takes memory and time as [`Table::ask`] does, and may be
    /// refused as for want of memory where the cell has 2^63 - 1 owners.
    pub fn ask_watch(&self, query: &Query) -> Result<Watched, AskError>
        ensures answers { AnswersWatch (is_watchable query.now.ask)
            (ask_rows self.now.schema self.now.rows query.now) result }
        ensures spot { IfOk result (λ w. IsSpot self.now query.now w.spot) }
    {
        if !is_watchable(query.ask()) {
            return Err(AskError::Unwatchable);
        }
        let alloc = *self.trees.allocator();
        match lookup(alloc, &self.def, query.ask(), query) {
            Ok(at) => watched_at(alloc, &self.def, &self.trees[at.place()], at, query),
            Err(error) => Err(error),
        }
    }

    /// The cell of the same question in this table, where the spot was read from a table of the
    /// same definition. It takes no memory, and time in the length of the key.
    pub fn cell_at(&self, spot: &Spot) -> &Arc<WatchCell>
        requires { spot.now.index < length self.now.schema.indexes }
        ensures { cell_of self.now.trees spot.now.index spot.now.exact spot.now.key
            ≡ Some (arc_value result.now) }
    {
        cell_in(&self.trees[spot.index as usize], spot.exact, spot.key())
    }
}

/// Whether the answer to a question of this word may be watched.
fn is_watchable(ask: Ask) -> bool
    ensures { result ≡ is_watchable ask }
{
    !matches!(ask, Ask::Lower | Ask::ReverseLower | Ask::Longest)
}

/// Whether a question looks up the entry of a very key.
fn looks_up(at: &Target<'_>, query: &Query) -> bool
    ensures { result ≡ looks_up at.now.index query.now }
{
    matches!(query.ask(), Ask::First | Ask::Last) && is_exact(at.index(), query)
}

/// The cell that watches a look-up of a key in a tree, or of what begins with it.
fn cell_in<'a>(tree: &'a Tree, exact: bool, key: &[u8]) -> &'a Arc<WatchCell>
    ensures { arc_value result.now ≡ watch_in exact key.now tree.now }
{
    if exact {
        tree.get_watch(key).0
    } else {
        tree.seek_watch(key)
    }
}

/// The spot that watches the answer to a question in the tree of the index where it looks.
fn spot_at(def: &TableDef, tree: &Tree, at: Target<'_>, query: &Query) -> Result<Spot, AllocError>
    requires { at.place < length def.now.indexes }
    ensures { IfOk result (λ s. IsSpotIn at.entry query.now tree.now s) }
{
    let exact = looks_up(&at, query);
    let cell = Arc::try_clone(cell_in(tree, exact, at.key()))?;
    Ok(Spot {
        index: told_place(def, at.place()),
        key: at.into_key(),
        exact,
        watch: Watch::of(cell),
    })
}

/// What a question is answered from the tree of the index where it looks, with its watch.
fn watched_at(
    alloc: Global,
    def: &TableDef,
    tree: &Tree,
    at: Target<'_>,
    query: &Query,
) -> Result<Watched, AskError>
    requires { at.place < length def.now.indexes }
    ensures answers { MatchResult result
        (λ w. w.answer ≡ answer query.now.ask (is_exact at.entry.index query.now)
        at.entry.key (pairs_of (plain_of tree.now)))
        (λ e. e ≡ Memory) }
    ensures spot { IfOk result (λ w. IsSpotIn at.entry query.now tree.now w.spot) }
{
    let answer = answer_at(alloc, tree, &at, query)?;
    Ok(watched_with(def, tree, at, query, answer)?)
}

/// An answer with the spot that watches it.
fn watched_with(
    def: &TableDef,
    tree: &Tree,
    at: Target<'_>,
    query: &Query,
    answer: Answer,
) -> Result<Watched, AllocError>
    requires { at.place < length def.now.indexes }
    ensures answer { IfOk result (λ w. w.answer ≡ answer) }
    ensures spot { IfOk result (λ w. IsSpotIn at.entry query.now tree.now w.spot) }
{
    let spot = spot_at(def, tree, at, query)?;
    Ok(Watched { answer, spot })
}
