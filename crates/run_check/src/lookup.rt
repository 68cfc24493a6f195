//! Where a question looks.
ghost use Rattle.std.specs.Prelude.{◌≡◌, MatchResult};
ghost use Rattle.mdb_encode.specs.KeyAnswers.{AnswersKey};
ghost use Rattle.mdb_schema.specs.Answer.{argued_by, is_exact, is_prefix_name, key_asked, lookup_of};
ghost use Rattle.run_check.specs.inner.LookupView.{AnswersAskedKey, AnswersLookup, IsLookup};
ghost use Rattle.run_check.specs.inner.LookupView.{TellsNoLookup};

use mdb_encode::{ArgError, Key, arg_key, prefix_key};
use mdb_schema::question::{self, has_argument, has_enough, may_ask, may_name, own_name};
use mdb_schema::{Ask, AskError, IndexDef, Query, Schema, TableDef};
use std::alloc::Global;

/// An index of a table, both by their places, and a key in it.
#[derive(Drop)]
pub(crate) struct Lookup {
    pub(crate) table: usize,
    pub(crate) index: usize,
    /// Whether the entry of the very key is meant, where one row is asked for.
    pub(crate) exact: bool,
    pub(crate) key: Vec<u8>,
}

/// Whether a question's name of an index ends in `_prefix`.
pub(crate) fn is_prefix_name(query: &Query) -> bool
    ensures { result ≡ is_prefix_name query.now.index }
{
    question::is_prefix_name(query.index().as_str())
}

/// Whether a question asks for the entry of a very key, and not for those that begin with it.
fn is_exact(index: &IndexDef, query: &Query) -> bool
    ensures { result ≡ is_exact index.now query.now }
{
    index.unique() && !is_prefix_name(query) && has_argument(query)
}

/// Where a question looks that asks for this, or the first rule that it breaks.
pub(crate) fn look_up(
    alloc: Global,
    schema: &Schema,
    ask: Ask,
    query: &Query,
) -> Result<Lookup, AskError>
    ensures { MatchResult result (IsLookup schema.now (record query.now { ask = ask }))
        (TellsNoLookup schema.now (record query.now { ask = ask })) }
{
    let Some(table) = schema.find(query.table().as_str()) else {
        return Err(AskError::UnknownTable);
    };
    match schema.table(table) {
        Some(def) => lookup_in(alloc, table, def, ask, query),
        None => Err(AskError::UnknownTable),
    }
}

/// The same in a table that has been found.
fn lookup_in(
    alloc: Global,
    table: usize,
    def: &TableDef,
    ask: Ask,
    query: &Query,
) -> Result<Lookup, AskError>
    ensures { AnswersLookup table (record query.now { ask = ask })
        (lookup_of def.now (record query.now { ask = ask })) result }
{
    if !may_name(ask, query) {
        return Err(AskError::NoPrefixName);
    }
    let Some(place) = def.find(own_name(query.index().as_str())) else {
        return Err(AskError::UnknownIndex);
    };
    let Some(index) = def.index(place) else {
        return Err(AskError::UnknownIndex);
    };
    if !may_ask(ask, index) {
        return Err(AskError::NotUnique);
    }
    if !has_enough(ask, query) {
        return Err(AskError::ArgCount);
    }
    let exact = is_exact(index, query);
    match key_asked(alloc, index, query) {
        Ok(key) => Ok(Lookup {
            table,
            index: place,
            exact,
            key,
        }),
        Err(error) => Err(error),
    }
}

/// The key of a question in an index, empty where it has no argument.
fn key_asked(alloc: Global, index: &IndexDef, query: &Query) -> Result<Vec<u8>, AskError>
    ensures { AnswersAskedKey (key_asked index.now query.now query.now.args) result }
{
    if !has_argument(query) {
        return Ok(Vec::new(alloc));
    }
    match key_made(alloc, index, query) {
        Ok(key) => Ok(key.bytes().to_vec(alloc)?),
        Err(error) => Err(AskError::of_argument(error)),
    }
}

/// The key that a question's arguments make in an index, exact or in the prefix form, as its name of
/// the index says.
fn key_made(alloc: Global, index: &IndexDef, query: &Query) -> Result<Key, ArgError>
    ensures { AnswersKey (argued_by index.now query.now) result }
{
    if is_prefix_name(query) {
        prefix_key(alloc, index.kind(), query.args())
    } else {
        arg_key(alloc, index.kind(), query.args())
    }
}
