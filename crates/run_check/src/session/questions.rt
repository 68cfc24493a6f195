//! Questions.
ghost use Rattle.std.specs.Prelude.{◌≡◌, ◌<◌, ◌++◌, ℕ, [], IfOk, List, Ok, length};
ghost use Rattle.mdb_schema.specs.Answer.{ask as ask_of};
ghost use Rattle.mdb_schema.specs.History.{History};
ghost use Rattle.mdb_schema.specs.LawfulSchema.{IsLawfulSchema};
ghost use Rattle.mdb_schema.specs.Query.{Query};
ghost use Rattle.mdb_schema.specs.Schema.{DbSchema};
ghost use Rattle.mdb_schema.specs.declared.answer.Answer.{Answer};
ghost use Rattle.client_script.specs.Reply.{answer_text};
ghost use Rattle.client_script.specs.Client as plain;
ghost use Rattle.client_script.specs.Turn.{ask_turn, question_turn, size_turn};
ghost use Rattle.run_check.specs.inner.AnswerView.{has_row};
ghost use Rattle.run_check.specs.inner.ClientView.{known, sight_known};
ghost use Rattle.run_check.specs.inner.LookupView.{IsLookup};
ghost use Rattle.run_check.specs.inner.SessionView.{AreKnown, IsKnown, TellsTurn};
ghost use Rattle.run_check.specs.inner.StoreView.{Begun, IsSightOf, StandsFor, indexes_at, state_seen};

use crate::answer::write_answer;
use crate::client::Client;
use crate::lookup::{Lookup, look_up};
use crate::reply::write_numbered;
use crate::session::{Refused, Sessions};
use crate::sight::Sight;
use client_script::{AskCommand, Rule};
use mdb_datum::Text;
use mdb_schema::{Ask, Query};
use std::alloc::AllocError;

impl<'a> Sessions<'a> {
    /// A question.
    pub(super) fn ask(&mut self, knows: &Client<'a>, line: &AskCommand) -> Result<(), Refused>
        requires known { AreKnown self.old knows.now }
        ensures told { (schema : DbSchema) (H : History) (txns : List Begun)
            → IsLawfulSchema schema → IsKnown schema H txns self.old knows.now
            → TellsTurn schema (ask_turn schema H (known txns knows.now) line.now)
            (known txns knows.now) (known txns knows.now) self.old.text.items self.new.text.items result }
        ensures kept { self.new ≡ record self.old { text = self.new.text } }
    {
        match line {
            AskCommand::Question { query } => {
                let sight = knows.sight()?;
                self.question(sight, query)
            }
            AskCommand::InSnapshot { name, query } => {
                let sight = knows.snapshot(name)?;
                self.question(sight, query)
            }
        }
    }

    /// A question of what is seen.
    fn question(&mut self, sight: Sight, query: &Query) -> Result<(), Refused>
        requires stands { (H : History) × (txns : List Begun)
            × StandsFor self.old.schema.now H txns self.old.store }
        ensures told { (H : History) (txns : List Begun) (v : plain.Client)
            → IsLawfulSchema self.old.schema.now
            → StandsFor self.old.schema.now H txns self.old.store → IsSightOf H txns sight
            → TellsTurn self.old.schema.now
            (question_turn self.old.schema.now H v (Ok (sight_known txns sight)) query.now) v v
            self.old.text.items self.new.text.items result }
        ensures kept { self.new ≡ record self.old { text = self.new.text } }
    {
        let at = look_up(self.alloc, self.schema, query.ask(), query)?;
        self.answer(sight, query.ask(), &at)?;
        Ok(())
    }

    /// Writes the answer to a question, and tells whether it has a row, where it is for one.
    pub(super) fn answer(&mut self, sight: Sight, ask: Ask, at: &Lookup) -> Result<bool, AllocError>
        requires table { at.now.table < length self.old.store.tables.items }
        requires index { at.now.index < length (indexes_at self.old.store at.now.table) }
        ensures told { (schema : DbSchema) (H : History) (txns : List Begun) (query : Query)
            → IsLawfulSchema schema → StandsFor schema H txns self.old.store
            → IsLookup schema query at.now → query.ask ≡ ask → IsSightOf H txns sight
            → IfOk result (λ found. (told : Answer)
            × (ask_of schema (state_seen schema H txns sight) query ≡ Ok told)
            × (self.new.text.items ≡ self.old.text.items ++ answer_text told)
            × (found ≡ has_row told)) }
        ensures kept { self.new ≡ record self.old { text = self.new.text } }
    {
        let indexes = self.store.table(at.table);
        write_answer(self.alloc, indexes, ask, at, sight, &mut self.text)
    }

    /// How many members a set has.
    pub(super) fn size(&mut self, knows: &Client<'a>, set: &Text) -> Result<(), Refused>
        ensures told { (schema : DbSchema) (H : History) (txns : List Begun)
            → IsKnown schema H txns self.old knows.now
            → TellsTurn schema (size_turn (known txns knows.now) set.now)
            (known txns knows.now) (known txns knows.now) self.old.text.items self.new.text.items result }
        ensures kept { self.new ≡ record self.old { text = self.new.text } }
    {
        let Some(found) = knows.watching.sets.get(set) else {
            return Err(Refused::By(Rule::UnknownName));
        };
        write_numbered(b"size ", found.members.len() as u64, &mut self.text)?;
        Ok(())
    }
}
