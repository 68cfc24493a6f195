//! The requests to the open transaction that leave it open.
ghost use Rattle.std.specs.Prelude.{◌≡◌, IfOk};
ghost use Rattle.client_script.specs.declared.command.AskCommand.TheVariants as ask_line;
ghost use Rattle.client_script.specs.declared.command.Command.TheVariants as commands;
ghost use Rattle.client_script.specs.declared.command.WriteCommand.TheVariants as write_line;
ghost use Rattle.client_session.specs.inner.StateView.{Presents};
ghost use Rattle.client_session.specs.inner.OpenView.{caller_of, transaction_of, IsOpen, Stands};
ghost use Rattle.client_session.specs.inner.OpenView.{TurnsTo};
ghost use Rattle.client_session.specs.inner.ReplyOf.{reply_of};

use crate::any_snapshot::AnySnapshot;
use crate::open::Open;
use crate::refusal::{refused, txn_question_rule, wipe_rule, write_rule};
use crate::reply::Reply;
use client_script::{Rule, WriteCommand};
use mdb_datum::{Row, Text};
use mdb_schema::{Query, Schema};
use mem_txn::SnapError;
use std::alloc::{AllocError, Global};

impl Open {
    /// What a question is answered. In a read transaction the answer is looked up as it is
    /// written: the reply owns the transaction's state till then.
    pub(crate) fn ask(&mut self, query: &Query) -> Result<Reply, AllocError>
        requires stands { Stands self.old }
        ensures turn { IfOk result (λ r. TurnsTo
            (commands.Ask (ask_line.Question query.now)) self.old self.new
            (reply_of (caller_of self.old).schema r)) }
        ensures caller { caller_of self.new ≡ caller_of self.old }
    {
        match self {
            Open::Nothing(_) => Ok(Reply::Refused(Rule::NoTransaction)),
            Open::Reading(_, txn) => Ok(Reply::Asked(txn.snapshot()?, query.share()?)),
            Open::Writing(txn) => match txn.ask(query) {
                Ok(answer) => Ok(Reply::Answered(answer)),
                Err(error) => refused(txn_question_rule(error)),
            },
        }
    }

    /// The present state of the open transaction, and the reply to a line that keeps it.
    pub(crate) fn present(&mut self) -> Result<(AnySnapshot, Reply), AllocError>
        requires stands { Stands self.old }
        requires opened { IsOpen self.old }
        ensures present { IfOk result (λ p. Presents self.old p.0
            (reply_of (caller_of self.old).schema p.1)) }
        ensures caller { caller_of self.new ≡ caller_of self.old }
        ensures transaction { transaction_of self.new ≡ transaction_of self.old }
        ensures stands { Stands self.new }
    {
        match self {
            Open::Nothing(_) => unreachable!(),
            Open::Reading(_, txn) => {
                let number = txn.number();
                Ok((
                    AnySnapshot::Committed(txn.snapshot()?),
                    Reply::SnapshotAt(number),
                ))
            }
            Open::Writing(txn) => {
                let number = txn.number();
                match txn.snapshot() {
                    Ok(snapshot) => Ok((
                        AnySnapshot::Uncommitted(snapshot),
                        Reply::SnapshotWithin(number),
                    )),
                    Err(SnapError::Memory | SnapError::Spoiled) => Err(AllocError),
                }
            }
        }
    }

    /// Carries out a command that writes rows.
    pub(crate) fn write_rows(
        &mut self,
        schema: &Schema,
        command: &WriteCommand,
    ) -> Result<Reply, AllocError>
        requires stands { Stands self.old }
        requires schema { schema.now ≡ (caller_of self.old).schema }
        ensures turn { IfOk result (λ r. TurnsTo (commands.Write command.now) self.old self.new
            (reply_of schema.now r)) }
        ensures caller { caller_of self.new ≡ caller_of self.old }
    {
        match command {
            WriteCommand::Insert { table, row } => self.insert(schema, table, row),
            WriteCommand::Delete { table, row } => self.delete(schema, table, row),
            WriteCommand::DeleteAll { query } => self.delete_all(query),
            WriteCommand::DeletePrefix { query } => self.delete_prefix(query),
        }
    }

    /// Puts a row.
    fn insert(&mut self, schema: &Schema, table: &Text, row: &Row) -> Result<Reply, AllocError>
        requires stands { Stands self.old }
        requires schema { schema.now ≡ (caller_of self.old).schema }
        ensures turn { IfOk result (λ r. TurnsTo
            (commands.Write (write_line.Insert table.now row.now)) self.old self.new
            (reply_of schema.now r)) }
        ensures caller { caller_of self.new ≡ caller_of self.old }
    {
        match self {
            Open::Nothing(_) => Ok(Reply::Refused(Rule::NoTransaction)),
            Open::Reading(_, _) => Ok(Reply::Refused(Rule::ReadOnly)),
            Open::Writing(txn) => match txn.insert(table.as_str(), row) {
                Ok(true) => Ok(Reply::Replaced),
                Ok(false) => Ok(Reply::Inserted),
                Err(error) => refused(write_rule(schema, table, error)),
            },
        }
    }

    /// Takes the row of another's `id` key out.
    fn delete(&mut self, schema: &Schema, table: &Text, row: &Row) -> Result<Reply, AllocError>
        requires stands { Stands self.old }
        requires schema { schema.now ≡ (caller_of self.old).schema }
        ensures turn { IfOk result (λ r. TurnsTo
            (commands.Write (write_line.Delete table.now row.now)) self.old self.new
            (reply_of schema.now r)) }
        ensures caller { caller_of self.new ≡ caller_of self.old }
    {
        match self {
            Open::Nothing(_) => Ok(Reply::Refused(Rule::NoTransaction)),
            Open::Reading(_, _) => Ok(Reply::Refused(Rule::ReadOnly)),
            Open::Writing(txn) => match txn.delete(table.as_str(), row) {
                Ok(_) => Ok(Reply::Deleted),
                Err(error) => refused(write_rule(schema, table, error)),
            },
        }
    }

    /// Takes out the rows that Get lists.
    fn delete_all(&mut self, query: &Query) -> Result<Reply, AllocError>
        requires stands { Stands self.old }
        ensures turn { IfOk result (λ r. TurnsTo
            (commands.Write (write_line.DeleteAll query.now)) self.old self.new
            (reply_of (caller_of self.old).schema r)) }
        ensures caller { caller_of self.new ≡ caller_of self.old }
    {
        match self {
            Open::Nothing(_) => Ok(Reply::Refused(Rule::NoTransaction)),
            Open::Reading(_, _) => Ok(Reply::Refused(Rule::ReadOnly)),
            Open::Writing(txn) => match txn.delete_all(query) {
                Ok(count) => Ok(Reply::Wiped(count)),
                Err(error) => refused(wipe_rule(error)),
            },
        }
    }

    /// The same by an index's name with `_prefix`.
    fn delete_prefix(&mut self, query: &Query) -> Result<Reply, AllocError>
        requires stands { Stands self.old }
        ensures turn { IfOk result (λ r. TurnsTo
            (commands.Write (write_line.DeletePrefix query.now)) self.old self.new
            (reply_of (caller_of self.old).schema r)) }
        ensures caller { caller_of self.new ≡ caller_of self.old }
    {
        match self {
            Open::Nothing(_) => Ok(Reply::Refused(Rule::NoTransaction)),
            Open::Reading(_, _) => Ok(Reply::Refused(Rule::ReadOnly)),
            Open::Writing(txn) => match txn.delete_prefix(query) {
                Ok(count) => Ok(Reply::Wiped(count)),
                Err(error) => refused(wipe_rule(error)),
            },
        }
    }

    /// Keeps a text for the commit to hand out.
    pub(crate) fn defer(&mut self, alloc: Global, text: &Text) -> Result<Reply, AllocError>
        requires stands { Stands self.old }
        ensures turn { IfOk result (λ r. TurnsTo (commands.Defer text.now) self.old self.new
            (reply_of (caller_of self.old).schema r)) }
        ensures caller { caller_of self.new ≡ caller_of self.old }
    {
        match self {
            Open::Nothing(_) => Ok(Reply::Refused(Rule::NoTransaction)),
            Open::Reading(_, _) => Ok(Reply::Refused(Rule::ReadOnly)),
            Open::Writing(txn) => match txn.defer(Text::of(alloc, text.as_str())?) {
                Ok(()) => Ok(Reply::Deferred),
                Err(_) => Err(AllocError),
            },
        }
    }
}
