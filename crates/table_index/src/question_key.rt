//! The key of a question's arguments.
ghost use Rattle.std.specs.Prelude.{◌≡◌, IfOk};
ghost use Rattle.mdb_encode.specs.KeyAnswers.{AnswersKey};
ghost use Rattle.mdb_schema.specs.Answer.{argued_by, key_asked};
ghost use Rattle.table_index.specs.inner.Keys.{IsShort};
ghost use Rattle.table_index.specs.inner.Lookups.{AnswersAskedKey, key_or_empty};

use mdb_encode::{ArgError, Key, arg_key, prefix_key};
use mdb_schema::question::{has_argument, is_prefix_name};
use mdb_schema::{AskError, IndexDef, Query};
use std::alloc::Global;

/// The key that a question's arguments make in an index, exact or in the prefix form, as its name
/// of the index says.
fn key_made(alloc: Global, index: &IndexDef, query: &Query) -> Result<Key, ArgError>
    ensures answers { AnswersKey (argued_by index.now query.now) result }
    ensures short { IfOk result (λ key. IsShort key) }
{
    if is_prefix_name(query.index().as_str()) {
        prefix_key(alloc, index.kind(), query.args())
    } else {
        arg_key(alloc, index.kind(), query.args())
    }
}

/// The key of a question in an index, none where it has no argument. It takes memory for the key.
pub(crate) fn key_asked(
    alloc: Global,
    index: &IndexDef,
    query: &Query,
) -> Result<Option<Key>, AskError>
    ensures answers { AnswersAskedKey (key_asked index.now query.now query.now.args) result }
    ensures short { IfOk result (λ key. IsShort (key_or_empty key)) }
{
    if !has_argument(query) {
        return Ok(None);
    }
    match key_made(alloc, index, query) {
        Ok(key) => Ok(Some(key)),
        Err(error) => Err(AskError::of_argument(error)),
    }
}
