//! What a question says of itself: the tests of its words, before the keys of an index are looked
//! at.
ghost use Rattle.std.specs.Prelude.{◌≡◌, ◌||◌, not};
ghost use Rattle.mdb_schema.specs.Answer.{has_argument, may_ask, may_name, needs_argument};
ghost use Rattle.mdb_schema.specs.Answer.{is_prefix_name, own_name};

use crate::ask::Ask;
use crate::index_def::IndexDef;
use crate::query::Query;

/// Whether a question's name of an index ends in `_prefix`.
pub fn is_prefix_name(name: &str) -> bool
    ensures { result ≡ is_prefix_name name.now }
{
    name.as_bytes().ends_with(b"_prefix")
}

/// The index's own name, in a question's name of it.
pub fn own_name(name: &str) -> &str
    ensures { result.now ≡ own_name name.now }
{
    match name.strip_suffix("_prefix") {
        Some(own) => own,
        None => name,
    }
}

/// Whether a question has an argument.
pub fn has_argument(query: &Query) -> bool
    ensures { result ≡ has_argument query.now }
{
    query.args().len() > 0
}

/// Whether a question of these words may name an index as it does.
pub fn may_name(ask: Ask, query: &Query) -> bool
    ensures { result ≡ may_name ask query.now }
{
    match ask {
        Ask::Longest => is_prefix_name(query.index().as_str()),
        _ => true,
    }
}

/// Whether a question of these words may be asked of an index.
pub fn may_ask(ask: Ask, index: &IndexDef) -> bool
    ensures { result ≡ may_ask ask index.now }
{
    match ask {
        Ask::Longest => index.unique(),
        _ => true,
    }
}

/// Whether a question has an argument where its words need one.
pub fn has_enough(ask: Ask, query: &Query) -> bool
    ensures { result ≡ (not (needs_argument ask) || has_argument query.now) }
{
    match ask {
        Ask::Longest | Ask::ReverseLower => has_argument(query),
        _ => true,
    }
}
