//! The answers to the lines of a script.
ghost use Rattle.std.specs.Prelude.{◌≡◌, ◌++◌, ◌∷◌, OnErr, OnOk, length, decimal, codes, map};
ghost use Rattle.std.specs.Prelude.{if◌then◌else◌, option_copied, slice_get, take};
ghost use Rattle.mdb_datum.specs.Written.{row_text};
ghost use Rattle.mem_txn.specs.Transactions.{deferred_items};
ghost use Rattle.client_script.specs.Legal.{number_printed};
ghost use Rattle.client_script.specs.Reply.{answer_text, change_text, changed_lines, did_lines};
ghost use Rattle.client_script.specs.Reply.{further, line_text, reply_text, row_lines, row_or_none};
ghost use Rattle.client_script.specs.Turn.{changed_row, name_of};
ghost use Rattle.mdb_schema.specs.Schema.{DbSchema};
ghost use Rattle.client_session.specs.inner.Looked.{IsLooked};
ghost use Rattle.client_session.specs.inner.ReplyOf.{reply_of, IsNumbered, IsWord};

use crate::asked::write_asked;
use client_script::Rule;
use mdb_datum::{Row, Text};
use mdb_schema::{Answer, Query, Rows, Schema};
use mem_txn::{Change, ChangeList, DeferredList, ReadTxn, Receipt};
use std::alloc::AllocError;

/// The answer to one line.
#[derive(Drop)]
pub(crate) enum Reply {
    /// A read transaction stands on the commit of this number.
    ReadAt(u64),
    /// A write transaction stands on the commit of this number.
    WriteAt(u64),
    Ended,
    /// A new commit, what it changed, and the deferred texts.
    Committed(Receipt<Text>),
    Aborted,
    Inserted,
    Replaced,
    Deleted,
    /// How many rows a wipe took out.
    Wiped(u64),
    Deferred,
    Answered(Answer),
    /// The answer to a question of a read state. It is written from walks over the state's rows.
    Asked(ReadTxn, Query),
    /// A snapshot stands on the commit of this number.
    SnapshotAt(u64),
    /// A snapshot stands on the commit of this number, with its transaction's writes.
    SnapshotWithin(u64),
    /// A watch is quiet after so many commits.
    QuietAt(u64),
    /// A watch has fired, after so many commits.
    FiredAt(u64),
    /// How many watches a set has.
    Sized(usize),
    /// The name of a set's watch that has fired, after so many commits.
    WokenBy(Text, u64),
    /// The watch that cancels a wait has fired, after so many commits.
    StoppedAt(u64),
    /// The line breaks this rule.
    Refused(Rule),
}

impl Reply {
    /// Whether it tells a commit.
    pub(crate) fn tells_commit(&self) -> bool
        ensures { (schema : DbSchema)
            → length (number_printed (reply_of schema self.now)) ≡ (if result then 1 else 0) }
    {
        match self {
            Reply::Committed(_) => true,
            _ => false,
        }
    }

    /// Adds `LINE: ANSWER` and a line feed. After `AllocError` the text is as before.
    pub(crate) fn add(
        &self,
        line: u32,
        schema: &Schema,
        text: &mut Vec<u8>,
    ) -> Result<(), AllocError>
        ensures ok { OnOk result
            (text.new.items ≡ text.old.items ++ line_text line (reply_of schema.now self.now)) }
        ensures err { OnErr result (text.new.items ≡ text.old.items) }
    {
        let before = text.len();
        match self.write(line, schema, text) {
            Ok(()) => Ok(()),
            Err(error) => {
                text.truncate(before);
                Err(error)
            }
        }
    }

    /// Writes `LINE: ANSWER` and a line feed.
    fn write(&self, line: u32, schema: &Schema, out: &mut Vec<u8>) -> Result<(), AllocError>
        ensures text { OnOk result
            (out.new.items ≡ out.old.items ++ line_text line (reply_of schema.now self.now)) }
        ensures before { take (length out.old.items) out.new.items ≡ out.old.items }
    {
        write_number(u64::from(line), out)?;
        out.extend_from_slice(b": ")?;
        self.write_answer(schema, out)?;
        out.push(b'\n')?;
        Ok(())
    }

    /// Adds the answer alone.
    fn write_answer(&self, schema: &Schema, out: &mut Vec<u8>) -> Result<(), AllocError>
        ensures text { OnOk result
            (out.new.items ≡ out.old.items ++ reply_text (reply_of schema.now self.now)) }
        ensures before { take (length out.old.items) out.new.items ≡ out.old.items }
    {
        match self {
            Reply::ReadAt(_)
            | Reply::WriteAt(_)
            | Reply::Wiped(_)
            | Reply::SnapshotAt(_)
            | Reply::SnapshotWithin(_)
            | Reply::QuietAt(_)
            | Reply::FiredAt(_)
            | Reply::Sized(_)
            | Reply::StoppedAt(_) => self.write_numbered(out),
            Reply::WokenBy(name, number) => write_woken(name, *number, out),
            Reply::Committed(receipt) => write_commit(receipt, schema, out),
            Reply::Answered(answer) => write_rows(answer, out),
            Reply::Asked(txn, query) => write_asked(txn, query, out),
            Reply::Refused(rule) => rule.write(schema, out),
            Reply::Ended
            | Reply::Aborted
            | Reply::Inserted
            | Reply::Replaced
            | Reply::Deleted
            | Reply::Deferred => out.extend_from_slice(self.word()),
        }
    }

    /// The answer that is a word alone.
    fn word(&self) -> &'static [u8]
        requires { IsWord self.now }
        ensures { (schema : DbSchema) → result.now ≡ reply_text (reply_of schema self.now) }
    {
        match self {
            Reply::Ended => b"ended",
            Reply::Aborted => b"aborted",
            Reply::Inserted => b"inserted",
            Reply::Replaced => b"replaced",
            Reply::Deleted => b"deleted",
            Reply::Deferred => b"deferred",
            _ => unreachable!(),
        }
    }

    /// Adds the answer that is words and a number.
    fn write_numbered(&self, out: &mut Vec<u8>) -> Result<(), AllocError>
        requires { IsNumbered self.now }
        ensures text { OnOk result ((schema : DbSchema) →
            out.new.items ≡ out.old.items ++ reply_text (reply_of schema self.now)) }
        ensures before { take (length out.old.items) out.new.items ≡ out.old.items }
    {
        match self {
            Reply::ReadAt(number) => write_at(b"read @", *number, out),
            Reply::WriteAt(number) => write_at(b"write @", *number, out),
            Reply::Wiped(count) => write_at(b"deleted ", *count, out),
            Reply::SnapshotAt(number) => write_at(b"snapshot @", *number, out),
            Reply::SnapshotWithin(number) => write_within(*number, out),
            Reply::QuietAt(_) | Reply::FiredAt(_) | Reply::Sized(_) | Reply::StoppedAt(_) => {
                self.write_looked(out)
            }
            _ => unreachable!(),
        }
    }

    /// Adds the answer of a watch or a set that is words and a number.
    fn write_looked(&self, out: &mut Vec<u8>) -> Result<(), AllocError>
        requires { IsLooked self.now }
        ensures text { OnOk result ((schema : DbSchema) →
            out.new.items ≡ out.old.items ++ reply_text (reply_of schema self.now)) }
        ensures before { take (length out.old.items) out.new.items ≡ out.old.items }
    {
        match self {
            Reply::QuietAt(number) => write_at(b"quiet @", *number, out),
            Reply::FiredAt(number) => write_at(b"fired @", *number, out),
            Reply::Sized(count) => write_at(b"size ", *count as u64, out),
            Reply::StoppedAt(number) => write_at(b"stopped @", *number, out),
            _ => unreachable!(),
        }
    }
}

/// Adds a word and a number.
pub(crate) fn write_at(word: &[u8], number: u64, out: &mut Vec<u8>) -> Result<(), AllocError>
    ensures text { OnOk result (out.new.items ≡ out.old.items ++ (word.now ++ decimal number)) }
    ensures before { take (length out.old.items) out.new.items ≡ out.old.items }
{
    out.extend_from_slice(word)?;
    write_number(number, out)?;
    Ok(())
}

/// Adds a number in decimal.
pub(crate) fn write_number(number: u64, out: &mut Vec<u8>) -> Result<(), AllocError>
    ensures text { OnOk result (out.new.items ≡ out.old.items ++ decimal number) }
    ensures unchanged { OnErr result (out.new.items ≡ out.old.items) }
{
    let mut buffer = itoa::Buffer::new();
    out.extend_from_slice(buffer.format(number).as_bytes())
}

/// Adds the answer to the snapshot of a write transaction.
fn write_within(number: u64, out: &mut Vec<u8>) -> Result<(), AllocError>
    ensures text { OnOk result (out.new.items ≡ out.old.items
        ++ (codes "snapshot @" ++ (decimal number ++ codes "+"))) }
    ensures before { take (length out.old.items) out.new.items ≡ out.old.items }
{
    write_at(b"snapshot @", number, out)?;
    out.extend_from_slice(b"+")?;
    Ok(())
}

/// Adds the answer to a wait that a member of the set has ended.
fn write_woken(name: &Text, number: u64, out: &mut Vec<u8>) -> Result<(), AllocError>
    ensures text { OnOk result (out.new.items ≡ out.old.items
        ++ (codes "fired " ++ (name.now ++ (codes " @" ++ decimal number)))) }
    ensures before { take (length out.old.items) out.new.items ≡ out.old.items }
{
    out.extend_from_slice(b"fired ")?;
    out.extend_from_slice(name.as_str().as_bytes())?;
    write_at(b" @", number, out)
}

/// Adds a commit's number, a line for each change, and a line for each deferred text.
fn write_commit(
    receipt: &Receipt<Text>,
    schema: &Schema,
    out: &mut Vec<u8>,
) -> Result<(), AllocError>
    ensures text { OnOk result (out.new.items ≡ out.old.items ++ (codes "commit @"
        ++ (decimal receipt.now.number
        ++ (changed_lines (map (changed_row schema.now) receipt.now.changes)
        ++ did_lines (deferred_items receipt.now.items))))) }
    ensures before { take (length out.old.items) out.new.items ≡ out.old.items }
{
    write_at(b"commit @", receipt.number, out)?;
    write_changes(&receipt.changes, schema, out)?;
    write_deferred(&receipt.items, out)
}

/// Adds a line for each change.
fn write_changes(changes: &ChangeList, schema: &Schema, out: &mut Vec<u8>) -> Result<(), AllocError>
    ensures text { OnOk result (out.new.items ≡ out.old.items
        ++ changed_lines (map (changed_row schema.now) changes.now)) }
    ensures before { take (length out.old.items) out.new.items ≡ out.old.items }
{
    for at in 0..changes.len() {
        let Some(change) = changes.get(at) else {
            unreachable!();
        };
        write_change(change, schema, out)?;
    }
    Ok(())
}

/// Adds a line for a change.
fn write_change(change: &Change, schema: &Schema, out: &mut Vec<u8>) -> Result<(), AllocError>
    ensures text { OnOk result (out.new.items ≡ out.old.items
        ++ further (change_text (changed_row schema.now change.now))) }
    ensures before { take (length out.old.items) out.new.items ≡ out.old.items }
{
    out.extend_from_slice(b"\n  changed ")?;
    write_table_name(schema, change.table() as usize, out)?;
    write_row_or_none(change.before(), out)?;
    write_row_or_none(change.after(), out)
}

/// Adds the name of the table at a place in the schema.
fn write_table_name(schema: &Schema, table: usize, out: &mut Vec<u8>) -> Result<(), AllocError>
    ensures text { OnOk result
        (out.new.items ≡ out.old.items ++ name_of (slice_get schema.now table)) }
    ensures before { take (length out.old.items) out.new.items ≡ out.old.items }
{
    match schema.table(table) {
        Some(def) => out.extend_from_slice(def.name().as_str().as_bytes()),
        None => Ok(()),
    }
}

/// Adds a blank and a row, or that there is none.
fn write_row_or_none(row: Option<&Row>, out: &mut Vec<u8>) -> Result<(), AllocError>
    ensures text { OnOk result
        (out.new.items ≡ out.old.items ++ 32 ∷ row_or_none (option_copied row.entry)) }
    ensures before { take (length out.old.items) out.new.items ≡ out.old.items }
{
    out.push(b' ')?;
    match row {
        Some(row) => row.append_doc(out),
        None => out.extend_from_slice(b"none"),
    }
}

/// Adds a line for each deferred text.
fn write_deferred(items: &DeferredList<Text>, out: &mut Vec<u8>) -> Result<(), AllocError>
    ensures text { OnOk result (out.new.items ≡ out.old.items ++ did_lines (deferred_items items.now)) }
    ensures before { take (length out.old.items) out.new.items ≡ out.old.items }
{
    for at in 0..items.len() {
        let Some(text) = items.get(at) else {
            unreachable!();
        };
        write_did(text, out)?;
    }
    Ok(())
}

/// Adds a line for a deferred text.
fn write_did(text: &Text, out: &mut Vec<u8>) -> Result<(), AllocError>
    ensures text { OnOk result
        (out.new.items ≡ out.old.items ++ further (codes "did " ++ text.now)) }
    ensures before { take (length out.old.items) out.new.items ≡ out.old.items }
{
    out.extend_from_slice(b"\n  did ")?;
    out.extend_from_slice(text.as_str().as_bytes())?;
    Ok(())
}

/// Adds the answer to a question: a row or `none`, or a count and a line for each row.
pub(crate) fn write_rows(answer: &Answer, out: &mut Vec<u8>) -> Result<(), AllocError>
    ensures text { OnOk result (out.new.items ≡ out.old.items ++ answer_text answer.now) }
    ensures before { take (length out.old.items) out.new.items ≡ out.old.items }
{
    match answer {
        Answer::One(None) => out.extend_from_slice(b"none"),
        Answer::One(Some(row)) => write_row(row, out),
        Answer::Many(rows) => write_list(rows, out),
    }
}

/// Adds a row that was asked for.
fn write_row(row: &Row, out: &mut Vec<u8>) -> Result<(), AllocError>
    ensures text { OnOk result (out.new.items ≡ out.old.items ++ (codes "row " ++ row_text row.now)) }
    ensures before { take (length out.old.items) out.new.items ≡ out.old.items }
{
    out.extend_from_slice(b"row ")?;
    row.append_doc(out)?;
    Ok(())
}

/// Adds how many rows there are, and a line for each.
fn write_list(rows: &Rows, out: &mut Vec<u8>) -> Result<(), AllocError>
    ensures text { OnOk result (out.new.items ≡ out.old.items
        ++ (codes "rows " ++ (decimal (length rows.now) ++ row_lines rows.now))) }
    ensures before { take (length out.old.items) out.new.items ≡ out.old.items }
{
    write_at(b"rows ", rows.len() as u64, out)?;
    write_each(rows, out)
}

/// Adds a line for each row.
fn write_each(rows: &Rows, out: &mut Vec<u8>) -> Result<(), AllocError>
    ensures text { OnOk result (out.new.items ≡ out.old.items ++ row_lines rows.now) }
    ensures before { take (length out.old.items) out.new.items ≡ out.old.items }
{
    for at in 0..rows.len() {
        let Some(row) = rows.get(at) else {
            unreachable!();
        };
        write_line(row, out)?;
    }
    Ok(())
}

/// Adds a line for a row.
pub(crate) fn write_line(row: &Row, out: &mut Vec<u8>) -> Result<(), AllocError>
    ensures text { OnOk result (out.new.items ≡ out.old.items ++ further (row_text row.now)) }
    ensures before { take (length out.old.items) out.new.items ≡ out.old.items }
{
    out.extend_from_slice(b"\n  ")?;
    row.append_doc(out)?;
    Ok(())
}
