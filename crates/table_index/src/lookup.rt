//! Where a question looks.
ghost use Rattle.std.specs.Prelude.{◌≡◌, IfOk, Some, slice_get};
ghost use Rattle.mdb_schema.specs.Answer.{lookup_of};
ghost use Rattle.table_index.specs.inner.Keys.{IsShort};
ghost use Rattle.table_index.specs.inner.Lookups.{AnswersLookup, key_or_empty};

use crate::question_key::key_asked;
use mdb_encode::Key;
use mdb_schema::question::{has_enough, may_ask, may_name, own_name};
use mdb_schema::{Ask, AskError, IndexDef, Query, TableDef};
use std::alloc::Global;
use std::marker::Model;

/// Where a question looks, seen as the place of an index in the table, the index, and a key of at
/// most 1,024 bytes, which is empty where the question has no argument.
#[derive(Drop)]
pub(crate) struct Target<'a> {
    place: usize,
    index: &'a IndexDef,
    key: Option<Key>,
}

impl<'a> Model for Target<'a> {
    ghost use Rattle.mdb_schema.specs.Answer.{Lookup};
    ghost use Rattle.table_index.specs.Codes.{lookup_code};

    ghost Value = { Lookup };

    ghost coded = { lookup_code };

    ghost use Rattle.table_index.specs.inner.Views.{target_view, IsTarget};

    ghost view = { target_view };

    ghost invariant = { IsTarget };
}

impl<'a> Target<'a> {
    /// The place of the index in the table, counted from 0.
    pub(crate) fn place(&self) -> usize
        ensures { result ≡ self.now.place }
    {
        self.place
    }

    /// The index.
    pub(crate) fn index(&self) -> &'a IndexDef
        ensures { result.now ≡ self.now.index }
    {
        self.index
    }

    /// The key, where the question has an argument.
    pub(crate) fn into_key(self) -> Option<Key>
        ensures { key_or_empty result ≡ self.entry.key }
    {
        self.key
    }

    /// The key.
    pub(crate) fn key(&self) -> &[u8]
        ensures bytes { result.now ≡ self.now.key }
        ensures short { IsShort result.now }
    {
        match &self.key {
            Some(key) => key.bytes(),
            None => &[],
        }
    }
}

/// Where a question of these words looks, or the first rule that it breaks. It takes memory for the
/// key of its arguments.
pub(crate) fn lookup<'a>(
    alloc: Global,
    def: &'a TableDef,
    ask: Ask,
    query: &Query,
) -> Result<Target<'a>, AskError>
    ensures answers { AnswersLookup (lookup_of def.now (record query.now { ask = ask })) result }
    ensures there { IfOk result (λ l. slice_get def.now.indexes l.place ≡ Some l.index) }
{
    if !may_name(ask, query) {
        return Err(AskError::NoPrefixName);
    }
    let Some(place) = def.find(own_name(query.index().as_str())) else {
        return Err(AskError::UnknownIndex);
    };
    let Some(index) = def.index(place) else {
        unreachable!();
    };
    if !may_ask(ask, index) {
        return Err(AskError::NotUnique);
    }
    if !has_enough(ask, query) {
        return Err(AskError::ArgCount);
    }
    match key_asked(alloc, index, query) {
        Ok(key) => Ok(Target { place, index, key }),
        Err(error) => Err(error),
    }
}
