//! The watches and the sets that a line names: where they stand, or the rule that the line breaks.
ghost use Rattle.std.specs.Prelude.{◌≡◌, List, if◌then◌else◌, nat_lt};
ghost use Rattle.mdb_schema.specs.History.{History};
ghost use Rattle.mdb_schema.specs.Schema.{DbSchema};
ghost use Rattle.client_script.specs.Watching.{check_judged, limit_judged, until_judged, wait_judged};
ghost use Rattle.client_script.specs.Watching.{watch_called};
ghost use Rattle.run_check.specs.inner.CalledView.{ArePlacesOf, IsPlaceOf, IsSetPlaceOf, TellsJudged};
ghost use Rattle.run_check.specs.inner.ClientView.{known};
ghost use Rattle.run_check.specs.inner.NamedView.{value_named};
ghost use Rattle.run_check.specs.inner.SessionView.{IsSound};
ghost use Rattle.run_check.specs.inner.StoreView.{Begun};
ghost use Rattle.run_check.specs.inner.WatchView.{member_count};

use crate::client::Client;
use client_script::Rule;
use mdb_datum::Text;

/// The place of the watch of a name.
pub(crate) fn watch_place(knows: &Client<'_>, name: &Text) -> Result<usize, Rule>
    ensures { (schema : DbSchema) (txns : List Begun)
        → TellsJudged schema (IsPlaceOf knows.now.watching) (watch_called name.now (known txns knows.now))
        result }
{
    match knows.watching.watches.names.place(name) {
        Some(place) => Ok(place),
        None => Err(Rule::UnknownName),
    }
}

/// The place of the watch of a name, where no write transaction is open.
pub(crate) fn looked_watch(knows: &Client<'_>, name: &Text) -> Result<usize, Rule>
    ensures { (schema : DbSchema) (txns : List Begun)
        → TellsJudged schema (IsPlaceOf knows.now.watching) (check_judged (known txns knows.now) name.now)
        result }
{
    knows.no_writing()?;
    watch_place(knows, name)
}

/// The place of the one watch while the set of a name has fewer members than the limit, else that of
/// the other.
pub(crate) fn limited_watch(
    knows: &Client<'_>,
    set: &Text,
    limit: u32,
    name: &Text,
    other: &Text,
) -> Result<usize, Rule>
    ensures { (schema : DbSchema) (H : History) (txns : List Begun) → IsSound schema H txns knows.now
        → TellsJudged schema (IsPlaceOf knows.now.watching)
        (limit_judged (known txns knows.now) set.now limit name.now other.now) result }
{
    let first = watch_place(knows, name)?;
    let second = watch_place(knows, other)?;
    Ok(limited_place(knows, set, limit, first, second))
}

/// One of two places, as many members as the set of a name has.
fn limited_place(knows: &Client<'_>, set: &Text, limit: u32, first: usize, second: usize) -> usize
    ensures { result ≡ (if nat_lt (member_count (value_named set.now knows.now.watching.sets.names
        knows.now.watching.sets.values.items)) limit then first else second) }
{
    if knows.watching.size(set) < limit as usize {
        first
    } else {
        second
    }
}

/// The place of the set of a name, where no write transaction is open.
pub(crate) fn awaited_set(knows: &Client<'_>, set: &Text) -> Result<usize, Rule>
    ensures { (schema : DbSchema) (txns : List Begun)
        → TellsJudged schema (IsSetPlaceOf knows.now.watching) (wait_judged (known txns knows.now) set.now)
        result }
{
    knows.no_writing()?;
    match knows.watching.sets.names.place(set) {
        Some(place) => Ok(place),
        None => Err(Rule::UnknownName),
    }
}

/// The same, and the place of the watch that cancels.
pub(crate) fn awaited_both(
    knows: &Client<'_>,
    set: &Text,
    until: &Text,
) -> Result<(usize, usize), Rule>
    ensures { (schema : DbSchema) (txns : List Begun)
        → TellsJudged schema (ArePlacesOf knows.now.watching)
        (until_judged (known txns knows.now) set.now until.now) result }
{
    let set = awaited_set(knows, set)?;
    let until = watch_place(knows, until)?;
    Ok((set, until))
}
