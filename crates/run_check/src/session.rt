//! The fourth test of an output: whether each client may be told its replies.
ghost use Rattle.std.specs.Prelude.{◌≡◌, ◌+◌, ◌++◌, ℕ, [], IfErr, IfOk, List, None, OnOk, Some};
ghost use Rattle.std.specs.Prelude.{length, map, slice_get, unwrap_or};
ghost use Rattle.mdb_schema.specs.History.{History};
ghost use Rattle.mdb_schema.specs.Schema.{DbSchema, table_place};
ghost use Rattle.run_check.specs.FirstBad.{Found};
ghost use Rattle.run_check.specs.Views.{printed_of};
ghost use Rattle.client_script.specs.Client.{at_start};
ghost use Rattle.client_script.specs.declared.rule.Rule.TheVariants as rules;
ghost use Rattle.run_check.specs.declared.session.Refused.TheVariants as refusals;
ghost use Rattle.run_check.specs.inner.AskedView.{question_refused};
ghost use Rattle.run_check.specs.inner.CheckView.{CanCheck, ClientChecked, IsHeard, IsReady};
ghost use Rattle.run_check.specs.inner.ClientView.{known};
ghost use Rattle.run_check.specs.inner.SessionView.{AnswersTold, AreKnown, IsDue, IsKnown, SaysNumber, TellsLine};
ghost use Rattle.run_check.specs.inner.StoreView.{Begun};

mod names;
mod questions;
mod transactions;
mod waits;
mod watches;
mod writes;

use crate::client::Client;
use crate::commits::Committed;
use crate::decimal::number_behind;
use crate::reply::write_numbered;
use crate::shape::Printed;
use crate::stop::Stop;
use crate::store::Store;
use client_script::{Command, Rule, Script};
use mdb_datum::Text;
use mdb_schema::{AskError, Schema, TableDef};
use std::alloc::{AllocError, Global};

/// What the replies of clients are compared with.
#[derive(Drop)]
pub(crate) struct Sessions<'a> {
    pub(crate) alloc: Global,
    pub(crate) schema: &'a Schema,
    /// All that has stood in the tables; each write transaction adds its own writes, which no other
    /// sees.
    pub(crate) store: Store,
    /// The commits, and the place of each by the numbers from 1 on.
    pub(crate) commits: &'a [Committed],
    pub(crate) order: &'a [usize],
    /// How many write transactions have begun.
    pub(crate) begun: u32,
    /// The text of a reply.
    pub(crate) text: Vec<u8>,
}

/// Why a line is not carried out: it breaks a rule, or there is no memory.
#[derive(Drop)]
pub(crate) enum Refused {
    Memory,
    By(Rule),
}

impl From<Rule> for Refused {
    ghost from_gives = { λ rule e. e ≡ refusals.By rule };

    /// The rule.
    fn from(rule: Rule) -> Self {
        Refused::By(rule)
    }
}

impl From<AllocError> for Refused {
    ghost from_gives = { λ _ e. e ≡ refusals.Memory };

    /// Want of memory.
    fn from(_: AllocError) -> Self {
        Refused::Memory
    }
}

impl From<AskError> for Refused {
    ghost from_gives = { λ error e. e ≡ question_refused error };

    /// The rule of a question, or want of memory.
    fn from(error: AskError) -> Self {
        match Rule::of_question(error) {
            Some(rule) => Refused::By(rule),
            None => Refused::Memory,
        }
    }
}

impl<'a> Sessions<'a> {
    /// Whether a client may be told its replies, the first of which it can't be told is bad.
    pub(crate) fn check_client(
        &mut self,
        client: usize,
        script: &'a Script,
        replies: &[Printed<'_>],
    ) -> Result<(), Stop>
        requires heard { CanCheck self.old client script.now replies.now }
        ensures told { (schema : DbSchema) (found : Found) (txns : List Begun)
            → IsReady schema found.history txns self.old
            → IsHeard schema found client script.now (map printed_of replies.now)
            → ClientChecked schema found.history (client + 1) script.now
            (map printed_of replies.now) self.new result }
    {
        let mut knows = Client::new(self.alloc);
        self.check_replies(client, &mut knows, script, replies)
    }

    /// The same of a client that was told nothing yet.
    fn check_replies(
        &mut self,
        client: usize,
        knows: &mut Client<'a>,
        script: &'a Script,
        replies: &[Printed<'_>],
    ) -> Result<(), Stop>
        requires heard { CanCheck self.old client script.now replies.now }
        requires fresh { (txns : List Begun) → known txns knows.old ≡ at_start }
        ensures told { (schema : DbSchema) (found : Found) (txns : List Begun)
            → IsReady schema found.history txns self.old
            → IsHeard schema found client script.now (map printed_of replies.now)
            → ClientChecked schema found.history (client + 1) script.now
            (map printed_of replies.now) self.new result }
    {
        for (at, printed) in replies.iter().enumerate() {
            let Some(line) = script.get(at) else {
                return Ok(());
            };
            if !self.is_told(client, knows, &line.command, printed.text)? {
                return Err(Stop::Bad { line: printed.line });
            }
        }
        Ok(())
    }

    /// Whether a client may be told this text at a line; what it then knows.
    fn is_told(
        &mut self,
        client: usize,
        knows: &mut Client<'a>,
        command: &'a Command,
        text: &[u8],
    ) -> Result<bool, AllocError>
        requires known { AreKnown self.old knows.old }
        ensures told { (schema : DbSchema) (H : History) (txns : List Begun)
            → IsKnown schema H txns self.old knows.old
            → IsDue schema H (client + 1) (known txns knows.old) text.now
            → AnswersTold schema H (client + 1) command.now text.now (known txns knows.old)
            self.new knows.new result }
    {
        let schema: &'a Schema = self.schema;
        self.text.clear();
        match self.carry_out(client, knows, command, text) {
            Ok(()) => Ok(self.text.as_slice() == text),
            Err(Refused::Memory) => Err(AllocError),
            Err(Refused::By(rule)) => {
                self.text.clear();
                rule.write(schema, &mut self.text)?;
                Ok(self.text.as_slice() == text)
            }
        }
    }

    /// Carries out a line, and writes the text that may be told.
    fn carry_out(
        &mut self,
        client: usize,
        knows: &mut Client<'a>,
        command: &'a Command,
        text: &[u8],
    ) -> Result<(), Refused>
        requires known { AreKnown self.old knows.old }
        ensures told { (schema : DbSchema) (H : History) (txns : List Begun)
            → IsKnown schema H txns self.old knows.old
            → IsDue schema H (client + 1) (known txns knows.old) text.now → self.old.text.items ≡ []
            → TellsLine schema H (client + 1) command.now text.now (known txns knows.old)
            self.new knows.new result }
    {
        match command {
            Command::Transaction(line) => self.transaction(knows, line, text),
            Command::Write(line) => self.write(knows, line),
            Command::Defer { text } => self.defer(knows, text),
            Command::Ask(line) => self.ask(knows, line),
            Command::Name(line) => self.name(knows, line),
            Command::Size { set } => self.size(knows, set),
            Command::Watches(line) => self.watches(client, knows, line, text),
        }
    }

    /// Writes a word.
    fn say(&mut self, word: &[u8]) -> Result<(), Refused>
        ensures said { OnOk result (self.new.text.items ≡ self.old.text.items ++ word.now) }
        ensures short { IfErr result (λ e. e ≡ refusals.Memory) }
        ensures kept { self.new ≡ record self.old { text = self.new.text } }
    {
        self.text.extend_from_slice(word)?;
        Ok(())
    }

    /// Writes a word and the number that the text tells behind it, where that is of commits that are
    /// there, and no fewer than the client was told of. Else it writes nothing.
    fn say_number(
        &mut self,
        knows: &mut Client<'a>,
        word: &[u8],
        text: &[u8],
    ) -> Result<Option<u64>, AllocError>
        ensures said { IfOk result (λ told. SaysNumber word.now text.now knows.old.last
            (length self.old.order.now) self.old.text.items self.new.text.items told) }
        ensures knows { IfOk result (λ told.
            knows.new ≡ record knows.old { last = unwrap_or told knows.old.last }) }
        ensures kept { self.new ≡ record self.old { text = self.new.text } }
    {
        let Some(number) = number_behind(word, text) else {
            return Ok(None);
        };
        if number < knows.last || number > self.order.len() as u64 {
            return Ok(None);
        }
        knows.last = number;
        write_numbered(word, number, &mut self.text)?;
        Ok(Some(number))
    }

    /// The table of a name, with its place.
    fn table(&self, name: &Text) -> Result<(usize, &'a TableDef), Refused>
        ensures found { IfOk result (λ p. (table_place name.now self.now.schema.now ≡ Some p.0)
            × (slice_get self.now.schema.now p.0 ≡ Some p.1.now)) }
        ensures none { IfErr result (λ e. (e ≡ refusals.By rules.UnknownTable)
            × (table_place name.now self.now.schema.now ≡ None)) }
    {
        let schema: &'a Schema = self.schema;
        let Some(at) = schema.find(name.as_str()) else {
            return Err(Refused::By(Rule::UnknownTable));
        };
        match schema.table(at) {
            Some(def) => Ok((at, def)),
            None => Err(Refused::By(Rule::UnknownTable)),
        }
    }
}
