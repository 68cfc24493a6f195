//! What a commit is told to have changed.
ghost use Rattle.std.specs.Prelude.{◌≡◌, ◌++◌, ◌∷◌, None, OnOk, Some, length, map, option_copied};
ghost use Rattle.mdb_schema.specs.Net.{differ};
ghost use Rattle.mdb_schema.specs.State.{State};
ghost use Rattle.client_script.specs.Reply.{changed_lines, row_or_none};
ghost use Rattle.run_check.specs.inner.ChangeView.{ShowsState, change_of, changes_of, told_change};
ghost use Rattle.run_check.specs.inner.KeyView.{bytes_of};

use crate::client::Writing;
use crate::edit::row_at;
use crate::sight::Sight;
use crate::store::Store;
use mdb_datum::Row;
use mdb_schema::{Schema, TableDef};
use std::alloc::AllocError;

/// Whether a row has come, has gone, or has other members.
fn differ(before: Option<&Row>, after: Option<&Row>) -> bool
    ensures { result ≡ differ (option_copied before.entry) (option_copied after.entry) }
{
    match (before, after) {
        (None, None) => false,
        (Some(before), Some(after)) => !before.has_same_members(after),
        _ => true,
    }
}

/// Adds a blank and a row, or that there is none.
fn write_row_or_none(row: Option<&Row>, out: &mut Vec<u8>) -> Result<(), AllocError>
    ensures { OnOk result (out.new.items
        ≡ out.old.items ++ 32 ∷ row_or_none (option_copied row.entry)) }
{
    out.push(b' ')?;
    match row {
        Some(row) => row.append_doc(out),
        None => out.extend_from_slice(b"none"),
    }
}

/// Adds a line for what became of a row, where that differs.
fn write_change(
    def: &TableDef,
    before: Option<&Row>,
    after: Option<&Row>,
    out: &mut Vec<u8>,
) -> Result<(), AllocError>
    ensures { OnOk result (out.new.items ≡ out.old.items ++ changed_lines
        (told_change def.now.name (option_copied before.entry) (option_copied after.entry))) }
{
    if !differ(before, after) {
        return Ok(());
    }
    out.extend_from_slice(b"\n  changed ")?;
    out.extend_from_slice(def.name().as_str().as_bytes())?;
    write_row_or_none(before, out)?;
    write_row_or_none(after, out)
}

/// Adds a line for what became of the row of a key between two sights, where that differs.
fn write_key(
    schema: &Schema,
    store: &Store,
    first: Sight,
    last: Sight,
    key: &[u8],
    out: &mut Vec<u8>,
) -> Result<(), AllocError>
    requires { length store.now.tables.items ≡ length schema.now }
    ensures { (old new : State) → ShowsState schema.now old first store.now
        → ShowsState schema.now new last store.now
        → OnOk result (out.new.items
        ≡ out.old.items ++ changed_lines (change_of schema.now old new key.now)) }
{
    let Some((table, id)) = key.split_first() else {
        return Ok(());
    };
    let place = usize::from(*table);
    let Some(def) = schema.table(place) else {
        return Ok(());
    };
    let indexes = store.table(place);
    let before = row_at(def, indexes, id, first);
    let after = row_at(def, indexes, id, last);
    write_change(def, before, after, out)
}

/// Adds a line for each change of a transaction, in the order of tables and of `id` keys.
pub(crate) fn write_changes(
    schema: &Schema,
    store: &Store,
    writing: &Writing<'_>,
    out: &mut Vec<u8>,
) -> Result<(), AllocError>
    requires { length store.now.tables.items ≡ length schema.now }
    ensures { (old new : State)
        → ShowsState schema.now old (record { commits = writing.now.number; own = None }) store.now
        → ShowsState schema.now new
        (record { commits = writing.now.number; own = Some writing.now.own }) store.now
        → OnOk result (out.new.items ≡ out.old.items
        ++ changed_lines (changes_of schema.now old new (map bytes_of writing.now.changed.keys))) }
{
    let first = Sight::after(writing.number);
    let last = writing.sight();
    for key in writing.changed.iter() {
        write_key(schema, store, first, last, key, out)?;
    }
    Ok(())
}
