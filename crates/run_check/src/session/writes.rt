//! Lines that write rows.
ghost use Rattle.std.specs.Prelude.{◌≡◌, ◌≢◌, ◌<◌, ◌+◌, List, OnOk, Some, slice_get};
ghost use Rattle.mdb_datum.specs.Bytes.{Bytes};
ghost use Rattle.mdb_schema.specs.History.{History};
ghost use Rattle.mdb_schema.specs.LawfulSchema.{IsLawfulSchema};
ghost use Rattle.mdb_schema.specs.Schema.{DbSchema, table_place};
ghost use Rattle.mdb_schema.specs.Wipe.{wipe};
ghost use Rattle.mdb_schema.specs.Write.{put as put_of, remove as removal_of};
ghost use Rattle.mdb_schema.specs.declared.write_error.WriteError.TheVariants as write_errors;
ghost use Rattle.client_script.specs.Turn.{write_turn};
ghost use Rattle.client_script.specs.declared.command.WriteCommand.TheVariants as write_lines;
ghost use Rattle.run_check.specs.Commits.{accepted_step};
ghost use Rattle.run_check.specs.inner.ClientView.{changed_of, known};
ghost use Rattle.run_check.specs.inner.HistoryView.{removed_each};
ghost use Rattle.run_check.specs.inner.SessionView.{AreKnown, IsKnown, TurnTold};
ghost use Rattle.run_check.specs.inner.StoreView.{Begun};
ghost use Rattle.run_check.specs.inner.WritingView.{AnswersStep, AreWriting, IsWriting, Makes};
ghost use Rattle.run_check.specs.inner.WritingView.{TellsNone, TellsRow, TellsWrite, changed_then};
ghost use Rattle.run_check.specs.inner.WritingView.{refused_write, state_now, told_wipe, told_write};

use crate::client::{Client, Writing, add_changed};
use crate::edit::{listed, put, remove};
use crate::lookup::{is_prefix_name, look_up};
use crate::reply::write_numbered;
use crate::session::{Refused, Sessions};
use crate::sight::{Own, Stamp};
use client_script::{Rule, WriteCommand};
use mdb_datum::{Row, Text};
use mdb_schema::{Ask, AskError, Query, TableDef, WriteError};
use std::alloc::{AllocError, Global};

/// Why a write of the table at a place is refused.
fn write_refused(table: usize, error: WriteError) -> Refused
    ensures { result ≡ refused_write table error }
{
    match error {
        WriteError::Memory => Refused::Memory,
        error => Refused::By(Rule::Row { table, error }),
    }
}

impl<'a> Sessions<'a> {
    /// A line that writes rows.
    pub(super) fn write(
        &mut self,
        knows: &mut Client<'a>,
        line: &WriteCommand,
    ) -> Result<(), Refused>
        requires known { AreKnown self.old knows.old }
        ensures told { (schema : DbSchema) (H : History) (txns : List Begun)
            → IsLawfulSchema schema → IsKnown schema H txns self.old knows.old
            → TurnTold schema H (write_turn schema H (known txns knows.old) line.now)
            (known txns knows.old) self.old.text.items self.new knows.new result }
    {
        let mut writing = knows.take_writing()?;
        let told = self.write_in(&mut writing, line);
        knows.put_writing(writing);
        told
    }

    /// The same in a write transaction.
    fn write_in(&mut self, writing: &mut Writing<'a>, line: &WriteCommand) -> Result<(), Refused>
        requires { AreWriting self.old writing.old }
        ensures told { (schema : DbSchema) (H : History) (txns : List Begun)
            → IsWriting schema H txns self.old writing.old
            → TellsWrite schema H txns
            (told_write schema (state_now schema H txns writing.old.number writing.old.own) line.now)
            writing.old self.old.text.items self.new writing.new result }
        ensures kept { self.new ≡ record self.old { store = self.new.store; text = self.new.text } }
    {
        match line {
            WriteCommand::Insert { table, row } => self.insert(writing, table, row),
            WriteCommand::Delete { table, row } => self.delete(writing, table, row),
            WriteCommand::DeleteAll { query } => self.wipe(writing, query),
            WriteCommand::DeletePrefix { query } => self.wipe_prefix(writing, query),
        }
    }

    /// Puts a row.
    fn insert(&mut self, writing: &mut Writing<'a>, table: &Text, row: &Row) -> Result<(), Refused>
        requires { AreWriting self.old writing.old }
        ensures told { (schema : DbSchema) (H : History) (txns : List Begun)
            → IsWriting schema H txns self.old writing.old
            → TellsWrite schema H txns
            (told_write schema (state_now schema H txns writing.old.number writing.old.own)
            (write_lines.Insert table.now row.now))
            writing.old self.old.text.items self.new writing.new result }
        ensures kept { self.new ≡ record self.old { store = self.new.store; text = self.new.text } }
    {
        let (at, def) = self.table(table)?;
        match self.put_row(writing, def, at, row) {
            Ok(true) => self.say(b"replaced"),
            Ok(false) => self.say(b"inserted"),
            Err(error) => Err(write_refused(at, error)),
        }
    }

    /// Takes the row of another's `id` key out.
    fn delete(&mut self, writing: &mut Writing<'a>, table: &Text, row: &Row) -> Result<(), Refused>
        requires { AreWriting self.old writing.old }
        ensures told { (schema : DbSchema) (H : History) (txns : List Begun)
            → IsWriting schema H txns self.old writing.old
            → TellsWrite schema H txns
            (told_write schema (state_now schema H txns writing.old.number writing.old.own)
            (write_lines.Delete table.now row.now))
            writing.old self.old.text.items self.new writing.new result }
        ensures kept { self.new ≡ record self.old { store = self.new.store; text = self.new.text } }
    {
        let (at, def) = self.table(table)?;
        match self.remove_row(writing, def, at, row) {
            Ok(()) => self.say(b"deleted"),
            Err(error) => Err(write_refused(at, error)),
        }
    }

    /// Takes out the rows that Get lists by the name of an index with `_prefix`.
    fn wipe_prefix(&mut self, writing: &mut Writing<'a>, query: &Query) -> Result<(), Refused>
        requires { AreWriting self.old writing.old }
        ensures told { (schema : DbSchema) (H : History) (txns : List Begun)
            → IsWriting schema H txns self.old writing.old
            → TellsWrite schema H txns
            (told_write schema (state_now schema H txns writing.old.number writing.old.own)
            (write_lines.DeletePrefix query.now))
            writing.old self.old.text.items self.new writing.new result }
        ensures kept { self.new ≡ record self.old { store = self.new.store; text = self.new.text } }
    {
        self.table(query.table())?;
        if is_prefix_name(query) {
            self.wipe(writing, query)
        } else {
            Err(Refused::By(Rule::Question(AskError::NoPrefixName)))
        }
    }

    /// Takes out the rows that Get lists.
    fn wipe(&mut self, writing: &mut Writing<'a>, query: &Query) -> Result<(), Refused>
        requires { AreWriting self.old writing.old }
        ensures told { (schema : DbSchema) (H : History) (txns : List Begun)
            → IsWriting schema H txns self.old writing.old
            → TellsWrite schema H txns
            (told_wipe (wipe schema (state_now schema H txns writing.old.number writing.old.own) query.now))
            writing.old self.old.text.items self.new writing.new result }
        ensures kept { self.new ≡ record self.old { store = self.new.store; text = self.new.text } }
    {
        let at = look_up(self.alloc, self.schema, Ask::Get, query)?;
        let Some(def) = self.schema.table(at.table) else {
            return Err(Refused::By(Rule::UnknownTable));
        };
        let rows = listed(self.alloc, self.store.table(at.table), &at, writing.sight())?;
        let before = writing.own.writes;
        self.wipe_rows(writing, def, at.table, &rows)?;
        let gone = writing.own.writes.saturating_sub(before);
        write_numbered(b"deleted ", u64::from(gone), &mut self.text)?;
        Ok(())
    }

    /// Takes rows out of the table at a place, each where it is still there: one that was listed twice
    /// is gone the second time.
    fn wipe_rows(
        &mut self,
        writing: &mut Writing<'a>,
        def: &TableDef,
        table: usize,
        rows: &[Row],
    ) -> Result<(), AllocError>
        requires writing { AreWriting self.old writing.old }
        requires there { slice_get self.old.schema.now table ≡ Some def.now }
        requires named { (name : Bytes) × (table_place name self.old.schema.now ≡ Some table) }
        ensures done { (name : Bytes) → table_place name self.old.schema.now ≡ Some table
            → OnOk result (Makes (λ schema. removed_each schema name rows.now) self.old writing.old
            self.new writing.new) }
        ensures kept { self.new ≡ record self.old { store = self.new.store } }
    {
        for at in 0..rows.len() {
            self.wipe_row(writing, def, table, &rows[at])?;
        }
        Ok(())
    }

    /// Takes a row out of the table at a place, if it is there.
    fn wipe_row(
        &mut self,
        writing: &mut Writing<'a>,
        def: &TableDef,
        table: usize,
        row: &Row,
    ) -> Result<(), AllocError>
        requires writing { AreWriting self.old writing.old }
        requires there { slice_get self.old.schema.now table ≡ Some def.now }
        ensures done { (name : Bytes) → table_place name self.old.schema.now ≡ Some table
            → OnOk result (Makes (λ schema s. accepted_step schema s (removal_of name row.now)) self.old
            writing.old self.new writing.new) }
        ensures kept { self.new ≡ record self.old { store = self.new.store } }
    {
        match self.remove_row(writing, def, table, row) {
            Ok(()) => Ok(()),
            Err(error) => unless_memory(error),
        }
    }

    /// Puts a row into the table at a place, and tells whether it replaces another.
    fn put_row(
        &mut self,
        writing: &mut Writing<'a>,
        def: &TableDef,
        table: usize,
        row: &Row,
    ) -> Result<bool, WriteError>
        requires writing { AreWriting self.old writing.old }
        requires there { slice_get self.old.schema.now table ≡ Some def.now }
        ensures done { (schema : DbSchema) (H : History) (txns : List Begun) (name : Bytes)
            → IsWriting schema H txns self.old writing.old → table_place name schema ≡ Some table
            → AnswersStep TellsRow schema H txns (put_of name row.now) writing.old result self.new
            writing.new }
        ensures kept { self.new ≡ record self.old { store = self.new.store } }
    {
        let indexes = &mut self.store.tables[table];
        let stamp = Stamp::Own(writing.own);
        match put(self.alloc, def, indexes, row, writing.sight(), stamp) {
            Ok((id, replaced)) => {
                has_written(self.alloc, writing, def, table, &id)?;
                Ok(replaced)
            }
            Err(error) => Err(error),
        }
    }

    /// Takes the row of another's `id` key out of the table at a place.
    fn remove_row(
        &mut self,
        writing: &mut Writing<'a>,
        def: &TableDef,
        table: usize,
        row: &Row,
    ) -> Result<(), WriteError>
        requires writing { AreWriting self.old writing.old }
        requires there { slice_get self.old.schema.now table ≡ Some def.now }
        ensures done { (schema : DbSchema) (H : History) (txns : List Begun) (name : Bytes)
            → IsWriting schema H txns self.old writing.old → table_place name schema ≡ Some table
            → AnswersStep TellsNone schema H txns (removal_of name row.now) writing.old result self.new
            writing.new }
        ensures kept { self.new ≡ record self.old { store = self.new.store } }
    {
        let indexes = &mut self.store.tables[table];
        let stamp = Stamp::Own(writing.own);
        match remove(self.alloc, def, indexes, row, writing.sight(), stamp) {
            Ok(id) => {
                has_written(self.alloc, writing, def, table, &id)?;
                Ok(())
            }
            Err(error) => Err(error),
        }
    }
}

/// Want of memory, where a write was refused for that.
fn unless_memory(error: WriteError) -> Result<(), AllocError>
    ensures { OnOk result (error ≢ write_errors.Memory) }
{
    match error {
        WriteError::Memory => Err(AllocError),
        _ => Ok(()),
    }
}

/// Keeps that a transaction has made one more write: of the row of an `id` key, in a table at a place.
fn has_written(
    alloc: Global,
    writing: &mut Writing<'_>,
    def: &TableDef,
    table: usize,
    id: &[u8],
) -> Result<(), AllocError>
    requires { table < 256 }
    ensures changed { OnOk result (changed_of writing.new
        ≡ changed_then def.now.tracked table id.now (changed_of writing.old)) }
    ensures one_more { OnOk result (writing.new.own
        ≡ record { txn = writing.old.own.txn; writes = writing.old.own.writes + 1 }) }
    ensures kept { writing.new
        ≡ record writing.old { own = writing.new.own; changed = writing.new.changed } }
{
    if def.tracked() {
        add_changed(alloc, writing, table, id)?;
    }
    // No text has so many lines that the numbers run out.
    let writes = writing.own.writes.checked_add(1).ok_or(AllocError)?;
    writing.own = Own {
        txn: writing.own.txn,
        writes,
    };
    Ok(())
}
