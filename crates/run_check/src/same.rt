//! Whether two questions are the same.
ghost use Rattle.std.specs.Prelude.{◌≡◌};
ghost use Rattle.std.specs.Bool.{Decides};

use mdb_datum::Text;
use mdb_schema::{Ask, Query};

/// Whether two texts are the same.
fn is_same_text(one: &Text, other: &Text) -> bool
    ensures { Decides result (one.now ≡ other.now) }
{
    one.as_str() == other.as_str()
}

/// Whether the same is asked.
fn is_same_ask(one: Ask, other: Ask) -> bool
    ensures { Decides result (one ≡ other) }
{
    one == other
}

/// Whether two questions ask the same of the same index, by the name that they write, with the same
/// arguments.
pub(crate) fn is_same_query(one: &Query, other: &Query) -> bool
    ensures { Decides result (one.now ≡ other.now) }
{
    is_same_ask(one.ask(), other.ask())
        && is_same_text(one.table(), other.table())
        && is_same_text(one.index(), other.index())
        && one.args().has_same_items(other.args())
}
