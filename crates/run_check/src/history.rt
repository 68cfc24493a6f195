//! The history that an output fixes: the writes of its commits, in the order of their numbers.
ghost use Rattle.std.specs.Prelude.{◌≡◌, ◌≢◌, List, IfOk, OnOk, None, length, map};
ghost use Rattle.mdb_datum.specs.Row.{Fields};
ghost use Rattle.mdb_schema.specs.Wipe.{wipe};
ghost use Rattle.mdb_schema.specs.declared.ask_error.AskError.TheVariants as ask_errors;
ghost use Rattle.run_check.specs.Commits.{accepted, accepted_line, accepted_step, wiped};
ghost use Rattle.run_check.specs.declared.sight.Stamp.TheVariants as stamps;
ghost use Rattle.run_check.specs.CommitView.{AreInOrder, committed_of, writes_between};
ghost use Rattle.run_check.specs.inner.EditView.{AreReady, AreSeen};
ghost use Rattle.run_check.specs.inner.HistoryView.{HasMade, IsBegun, IsDone, Makes, edited};
ghost use Rattle.run_check.specs.inner.HistoryView.{removed_each, row_edited, rows_put};

use crate::commits::Committed;
use crate::edit::{listed, put, remove};
use crate::index::Index;
use crate::lookup::{is_prefix_name, look_up};
use crate::sight::{Sight, Stamp};
use crate::store::Store;
use client_script::{Command, Script, Scripts, WriteCommand};
use mdb_datum::{Row, Text};
use mdb_schema::{Ask, AskError, Query, Schema, TableDef, WriteError};
use std::alloc::{AllocError, Global};

/// What a line does with a row.
#[derive(Clone, Copy)]
enum Edit {
    /// Puts it.
    Put,
    /// Takes out the row of its `id` key.
    Remove,
}

/// Edits the indexes of a table by a row, where that is no refusal.
fn edit_there(
    alloc: Global,
    def: &TableDef,
    indexes: &mut [Index],
    number: u64,
    edit: Edit,
    row: &Row,
) -> Result<(), AllocError>
    requires ready { AreReady (stamps.Commit number) indexes.old }
    requires all { length indexes.old ≡ length def.now.indexes }
    ensures done { OnOk result ((rows : List Fields)
        → AreSeen def.now rows (record { commits = number; own = None }) indexes.old
        → IsDone def.now rows (rows_put edit row.now) (row_edited edit def.now row.now rows)
        (stamps.Commit number) indexes.old indexes.new) }
    ensures long { OnOk result (length indexes.new ≡ length indexes.old) }
{
    let sight = Sight::after(number);
    let stamp = Stamp::Commit(number);
    match edit {
        Edit::Put => match put(alloc, def, indexes, row, sight, stamp) {
            Err(WriteError::Memory) => Err(AllocError),
            Ok(_) | Err(_) => Ok(()),
        },
        Edit::Remove => match remove(alloc, def, indexes, row, sight, stamp) {
            Err(WriteError::Memory) => Err(AllocError),
            Ok(_) | Err(_) => Ok(()),
        },
    }
}

/// Edits the table of a name by a row, where that is no refusal.
fn commit_edit(
    alloc: Global,
    schema: &Schema,
    store: &mut Store,
    number: u64,
    table: &Text,
    edit: Edit,
    row: &Row,
) -> Result<(), AllocError>
    requires { IsBegun schema.now number store.old }
    ensures { OnOk result (Makes schema.now number
        (λ s. accepted_step schema.now s (edited edit table.now row.now)) store.old store.new) }
{
    let Some(at) = schema.find(table.as_str()) else {
        return Ok(());
    };
    let Some(def) = schema.table(at) else {
        return Ok(());
    };
    edit_there(alloc, def, &mut store.tables[at], number, edit, row)
}

/// Want of memory, where a question was refused for that.
fn unless_memory(error: AskError) -> Result<(), AllocError>
    ensures { OnOk result (error ≢ ask_errors.Memory) }
{
    match error {
        AskError::Memory => Err(AllocError),
        _ => Ok(()),
    }
}

/// Takes out the rows that Get lists, where that is no refusal.
fn commit_wipe(
    alloc: Global,
    schema: &Schema,
    store: &mut Store,
    number: u64,
    query: &Query,
) -> Result<(), AllocError>
    requires { IsBegun schema.now number store.old }
    ensures { OnOk result (Makes schema.now number (λ s. wiped (wipe schema.now s query.now))
        store.old store.new) }
{
    let at = match look_up(alloc, schema, Ask::Get, query) {
        Ok(at) => at,
        Err(error) => return unless_memory(error),
    };
    let rows = listed(alloc, store.table(at.table), &at, Sight::after(number))?;
    remove_rows(alloc, schema, store, number, query.table(), &rows)
}

/// Takes rows out of the table of a name, each where it is still there.
fn remove_rows(
    alloc: Global,
    schema: &Schema,
    store: &mut Store,
    number: u64,
    table: &Text,
    rows: &[Row],
) -> Result<(), AllocError>
    requires { IsBegun schema.now number store.old }
    ensures { OnOk result (Makes schema.now number
        (removed_each schema.now table.now rows.now) store.old store.new) }
{
    for at in 0..rows.len() {
        // A row that was listed twice is gone the second time.
        commit_edit(alloc, schema, store, number, table, Edit::Remove, &rows[at])?;
    }
    Ok(())
}

/// Carries out a line that writes rows, as part of the commit of a number.
fn commit_line(
    alloc: Global,
    schema: &Schema,
    store: &mut Store,
    number: u64,
    line: &WriteCommand,
) -> Result<(), AllocError>
    requires { IsBegun schema.now number store.old }
    ensures { OnOk result (Makes schema.now number (λ s. accepted_line schema.now s line.now)
        store.old store.new) }
{
    match line {
        WriteCommand::Insert { table, row } => {
            commit_edit(alloc, schema, store, number, table, Edit::Put, row)
        }
        WriteCommand::Delete { table, row } => {
            commit_edit(alloc, schema, store, number, table, Edit::Remove, row)
        }
        WriteCommand::DeleteAll { query } => commit_wipe(alloc, schema, store, number, query),
        WriteCommand::DeletePrefix { query } => {
            if is_prefix_name(query) {
                commit_wipe(alloc, schema, store, number, query)
            } else {
                Ok(())
            }
        }
    }
}

/// Carries out the lines of a transaction that write rows.
fn commit_lines(
    alloc: Global,
    schema: &Schema,
    store: &mut Store,
    commit: &Committed,
    script: &Script,
) -> Result<(), AllocError>
    requires { IsBegun schema.now commit.now.number store.old }
    ensures { OnOk result (Makes schema.now commit.now.number
        (λ s. accepted schema.now s (writes_between commit.now.first commit.now.«end» script.now))
        store.old store.new) }
{
    for at in commit.first..commit.end {
        if let Some(line) = script.get(at) {
            if let Command::Write(write) = &line.command {
                commit_line(alloc, schema, store, commit.number, write)?;
            }
        }
    }
    Ok(())
}

/// Carries out the lines of a commit.
fn commit_made(
    alloc: Global,
    schema: &Schema,
    scripts: &Scripts,
    store: &mut Store,
    commit: &Committed,
) -> Result<(), AllocError>
    requires { IsBegun schema.now commit.now.number store.old }
    ensures { OnOk result (Makes schema.now commit.now.number
        (λ s. accepted schema.now s (committed_of scripts.now commit.now).lines) store.old store.new) }
{
    match scripts.get(commit.client) {
        Some(script) => commit_lines(alloc, schema, store, commit, script),
        None => Ok(()),
    }
}

/// All that has stood in the tables under these commits. The order has the place of each commit, by
/// the numbers from 1 on.
pub(crate) fn history_of(
    alloc: Global,
    schema: &Schema,
    scripts: &Scripts,
    commits: &[Committed],
    order: &[usize],
) -> Result<Store, AllocError>
    requires { AreInOrder (map (committed_of scripts.now) commits.now) order.now }
    ensures { IfOk result (HasMade schema.now (map (committed_of scripts.now) commits.now)
        (length commits.now)) }
{
    let mut store = Store::new(alloc, schema)?;
    for at in 0..order.len() {
        let place = order[at];
        commit_made(alloc, schema, scripts, &mut store, &commits[place])?;
    }
    Ok(store)
}
