//! Lines that begin or end a transaction, and those that defer a text to its commit.
ghost use Rattle.std.specs.Prelude.{◌≡◌, ◌≢◌, ◌≤◌, ◌^◌, ◌++◌, ℕ, [], IfErr, IfOk, List, OnOk, length};
ghost use Rattle.mdb_schema.specs.History.{History};
ghost use Rattle.mdb_schema.specs.Schema.{DbSchema};
ghost use Rattle.client_script.specs.Turn.{defer_turn, transaction_turn};
ghost use Rattle.client_script.specs.declared.rule.Rule.{Rule};
ghost use Rattle.client_script.specs.declared.command.Command.TheVariants as commands;
ghost use Rattle.client_script.specs.declared.command.TransactionCommand.TheVariants as transaction_lines;
ghost use Rattle.run_check.specs.declared.session.Refused.TheVariants as refusals;
ghost use Rattle.run_check.specs.inner.ClientView.{begun_then, known};
ghost use Rattle.run_check.specs.inner.SessionView.{AreKnown, IsDue, IsKnown, TellsLine, TellsText, TellsTurn};
ghost use Rattle.run_check.specs.inner.StoreView.{Begun};

use crate::changes::write_changes;
use crate::client::{Client, Open, Writing};
use crate::reply::{write_deferred, write_numbered};
use crate::session::{Refused, Sessions};
use client_script::{Rule, TransactionCommand};
use mdb_datum::Text;
use std::alloc::AllocError;

impl<'a> Sessions<'a> {
    /// A line that begins or ends a transaction.
    pub(super) fn transaction(
        &mut self,
        knows: &mut Client<'a>,
        line: &TransactionCommand,
        text: &[u8],
    ) -> Result<(), Refused>
        requires known { AreKnown self.old knows.old }
        ensures told { (schema : DbSchema) (H : History) (txns : List Begun) (client : ℕ)
            → IsKnown schema H txns self.old knows.old
            → IsDue schema H client (known txns knows.old) text.now → self.old.text.items ≡ []
            → TellsLine schema H client (commands.Transaction line.now) text.now
            (known txns knows.old) self.new knows.new result }
    {
        match line {
            TransactionCommand::Read => self.read(knows, text),
            TransactionCommand::Write => self.begin(knows, text),
            TransactionCommand::End => self.end(knows),
            TransactionCommand::Commit => self.commit(knows),
            TransactionCommand::Abort => self.abort(knows),
        }
    }

    /// Begins a read transaction.
    fn read(&mut self, knows: &mut Client<'a>, text: &[u8]) -> Result<(), Refused>
        ensures told { (schema : DbSchema) (H : History) (txns : List Begun) (client : ℕ)
            → IsKnown schema H txns self.old knows.old → length H ≤ 2 ^ 24 → text.now ≢ []
            → TellsText schema H client
            (λ now. transaction_turn schema H now (known txns knows.old) transaction_lines.Read)
            (commands.Transaction transaction_lines.Read) text.now (known txns knows.old)
            (known txns knows.new) self.old.text.items self.new.text.items result }
        ensures keeps { (schema : DbSchema) (H : History) (txns : List Begun)
            → IsKnown schema H txns self.old knows.old
            → IfOk result (λ _. IsKnown schema H txns self.new knows.new) }
        ensures refuses { (schema : DbSchema) (H : History) (txns : List Begun)
            → IsKnown schema H txns self.old knows.old
            → IfErr result (λ e. (rule : Rule) → e ≡ refusals.By rule
            → IsKnown schema H txns self.new knows.new) }
        ensures kept { self.new ≡ record self.old { text = self.new.text } }
    {
        if !knows.is_closed() {
            return Err(Refused::By(Rule::TransactionOpen));
        }
        match self.say_number(knows, b"read @", text)? {
            Some(number) => {
                knows.open = Open::Reading(number);
                Ok(())
            }
            None => Ok(()),
        }
    }

    /// Begins a write transaction.
    fn begin(&mut self, knows: &mut Client<'a>, text: &[u8]) -> Result<(), Refused>
        ensures told { (schema : DbSchema) (H : History) (txns : List Begun) (client : ℕ)
            → IsKnown schema H txns self.old knows.old → length H ≤ 2 ^ 24 → text.now ≢ []
            → TellsText schema H client
            (λ now. transaction_turn schema H now (known txns knows.old) transaction_lines.Write)
            (commands.Transaction transaction_lines.Write) text.now (known txns knows.old)
            (known (begun_then txns knows.old.«open» knows.new.«open») knows.new)
            self.old.text.items self.new.text.items result }
        ensures begun { IfOk result (λ _. (txns : List Begun) → self.old.begun ≡ length txns
            → self.new.begun ≡ length (begun_then txns knows.old.«open» knows.new.«open»)) }
        ensures keeps { (schema : DbSchema) (H : History) (txns : List Begun)
            → IsKnown schema H txns self.old knows.old
            → IfOk result (λ _. IsKnown schema H
            (begun_then txns knows.old.«open» knows.new.«open») self.new knows.new) }
        ensures refuses { (schema : DbSchema) (H : History) (txns : List Begun)
            → IsKnown schema H txns self.old knows.old
            → IfErr result (λ e. (rule : Rule) → e ≡ refusals.By rule
            → IsKnown schema H (begun_then txns knows.old.«open» knows.new.«open») self.new knows.new) }
        ensures kept { self.new ≡ record self.old { text = self.new.text; begun = self.new.begun } }
    {
        if !knows.is_closed() {
            return Err(Refused::By(Rule::TransactionOpen));
        }
        match self.say_number(knows, b"write @", text)? {
            Some(number) => {
                // No text has so many lines that the numbers run out.
                self.begun = self.begun.checked_add(1).ok_or(AllocError)?;
                knows.open = Open::Writing(Writing::begin(self.alloc, number, self.begun));
                Ok(())
            }
            None => Ok(()),
        }
    }

    /// Ends a read transaction.
    fn end(&mut self, knows: &mut Client<'a>) -> Result<(), Refused>
        ensures told { (schema : DbSchema) (H : History) (now : ℕ) (txns : List Begun)
            → TellsTurn schema
            (transaction_turn schema H now (known txns knows.old) transaction_lines.End)
            (known txns knows.old) (known txns knows.new) self.old.text.items self.new.text.items result }
        ensures keeps { (schema : DbSchema) (H : History) (txns : List Begun)
            → IsKnown schema H txns self.old knows.old
            → IfOk result (λ _. IsKnown schema H txns self.new knows.new) }
        ensures refuses { (schema : DbSchema) (H : History) (txns : List Begun)
            → IsKnown schema H txns self.old knows.old
            → IfErr result (λ e. (rule : Rule) → e ≡ refusals.By rule
            → IsKnown schema H txns self.new knows.new) }
        ensures kept { self.new ≡ record self.old { text = self.new.text } }
    {
        match knows.open {
            Open::Nothing => Err(Refused::By(Rule::NoTransaction)),
            Open::Writing(_) => Err(Refused::By(Rule::WriteOpen)),
            Open::Reading(_) => {
                knows.open = Open::Nothing;
                self.say(b"ended")
            }
        }
    }

    /// Aborts a write transaction.
    fn abort(&mut self, knows: &mut Client<'a>) -> Result<(), Refused>
        ensures told { (schema : DbSchema) (H : History) (now : ℕ) (txns : List Begun)
            → TellsTurn schema
            (transaction_turn schema H now (known txns knows.old) transaction_lines.Abort)
            (known txns knows.old) (known txns knows.new) self.old.text.items self.new.text.items result }
        ensures keeps { (schema : DbSchema) (H : History) (txns : List Begun)
            → IsKnown schema H txns self.old knows.old
            → IfOk result (λ _. IsKnown schema H txns self.new knows.new) }
        ensures refuses { (schema : DbSchema) (H : History) (txns : List Begun)
            → IsKnown schema H txns self.old knows.old
            → IfErr result (λ e. (rule : Rule) → e ≡ refusals.By rule
            → IsKnown schema H txns self.new knows.new) }
        ensures kept { self.new ≡ record self.old { text = self.new.text } }
    {
        let _aborted = knows.take_writing()?;
        self.say(b"aborted")
    }

    /// Commits a write transaction. That the entry of the next number is this transaction's is known
    /// by then: it is the one that was told so, on the commit before it.
    fn commit(&mut self, knows: &mut Client<'a>) -> Result<(), Refused>
        requires known { AreKnown self.old knows.old }
        ensures told { (schema : DbSchema) (H : History) (now : ℕ) (txns : List Begun)
            → IsKnown schema H txns self.old knows.old
            → TellsTurn schema
            (transaction_turn schema H now (known txns knows.old) transaction_lines.Commit)
            (known txns knows.old) (known txns knows.new) self.old.text.items self.new.text.items result }
        ensures keeps { (schema : DbSchema) (H : History) (txns : List Begun)
            → IsKnown schema H txns self.old knows.old
            → IfOk result (λ _. knows.new.last ≤ length H
            → IsKnown schema H txns self.new knows.new) }
        ensures refuses { (schema : DbSchema) (H : History) (txns : List Begun)
            → IsKnown schema H txns self.old knows.old
            → IfErr result (λ e. (rule : Rule) → e ≡ refusals.By rule
            → IsKnown schema H txns self.new knows.new) }
        ensures kept { self.new ≡ record self.old { text = self.new.text } }
    {
        let writing = knows.take_writing()?;
        let number = writing.number + 1;
        write_numbered(b"commit @", number, &mut self.text)?;
        write_changes(self.schema, &self.store, &writing, &mut self.text)?;
        write_deferred(&writing.texts, &mut self.text)?;
        knows.last = number;
        Ok(())
    }

    /// Defers a text to the commit.
    pub(super) fn defer(&mut self, knows: &mut Client<'a>, text: &'a Text) -> Result<(), Refused>
        ensures told { (schema : DbSchema) (txns : List Begun)
            → TellsTurn schema (defer_turn (known txns knows.old) text.now)
            (known txns knows.old) (known txns knows.new) self.old.text.items self.new.text.items result }
        ensures keeps { (schema : DbSchema) (H : History) (txns : List Begun)
            → IsKnown schema H txns self.old knows.old
            → IfOk result (λ _. IsKnown schema H txns self.new knows.new) }
        ensures refuses { (schema : DbSchema) (H : History) (txns : List Begun)
            → IsKnown schema H txns self.old knows.old
            → IfErr result (λ e. (rule : Rule) → e ≡ refusals.By rule
            → IsKnown schema H txns self.new knows.new) }
        ensures kept { self.new ≡ record self.old { text = self.new.text } }
    {
        let mut writing = knows.take_writing()?;
        writing.texts.push(text).map_err(AllocError::from)?;
        knows.put_writing(writing);
        self.say(b"deferred")
    }
}
