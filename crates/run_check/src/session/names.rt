//! Lines that give a name to a snapshot or a watch.
ghost use Rattle.std.specs.Prelude.{◌≡◌, ◌++◌, ◌&&◌, ℕ, [], IfErr, IfOk, List, Ok, OnOk};
ghost use Rattle.mdb_schema.specs.History.{History};
ghost use Rattle.mdb_schema.specs.LawfulSchema.{IsLawfulSchema};
ghost use Rattle.mdb_schema.specs.Schema.{DbSchema};
ghost use Rattle.mdb_schema.specs.Watchable.{is_watchable};
ghost use Rattle.client_script.specs.Turn.{name_turn, snapshot_turn, watch_turn};
ghost use Rattle.client_script.specs.declared.rule.Rule.{Rule};
ghost use Rattle.run_check.specs.declared.session.Refused.TheVariants as refusals;
ghost use Rattle.run_check.specs.inner.ClientView.{known, sight_known};
ghost use Rattle.run_check.specs.inner.SessionView.{AreKnown, IsKnown, TellsTurn, TurnTold, snapshot_text};
ghost use Rattle.run_check.specs.inner.StoreView.{Begun, IsSightOf};

use crate::client::Client;
use crate::lookup::{Lookup, look_up};
use crate::reply::write_numbered;
use crate::session::{Refused, Sessions};
use crate::sight::Sight;
use crate::watching::Watch;
use client_script::{NameCommand, Rule};
use mdb_datum::Text;
use mdb_schema::{Ask, AskError, Query};

/// Whether a question may be watched.
fn is_watchable(ask: Ask) -> bool
    ensures { result ≡ is_watchable ask }
{
    matches!(ask, Ask::First | Ask::Last | Ask::Get | Ask::GetReverse)
}

/// Whether a question looks up one entry, and has found a row.
fn has_found(at: &Lookup, has_row: bool) -> bool
    ensures { result ≡ (at.now.exact && has_row) }
{
    at.exact && has_row
}

impl<'a> Sessions<'a> {
    /// A line that gives a name to a snapshot or a watch.
    pub(super) fn name(
        &mut self,
        knows: &mut Client<'a>,
        line: &'a NameCommand,
    ) -> Result<(), Refused>
        requires known { AreKnown self.old knows.old }
        ensures told { (schema : DbSchema) (H : History) (txns : List Begun)
            → IsLawfulSchema schema → IsKnown schema H txns self.old knows.old
            → TurnTold schema H (name_turn schema H (known txns knows.old) line.now)
            (known txns knows.old) self.old.text.items self.new knows.new result }
    {
        match line {
            NameCommand::Snapshot { name } => self.snapshot(knows, name),
            NameCommand::Watch { name, query } => {
                let sight = knows.sight()?;
                self.watch(knows, sight, name, query)
            }
            NameCommand::WatchIn {
                name,
                snapshot,
                query,
            } => {
                let sight = knows.snapshot(snapshot)?;
                self.watch(knows, sight, name, query)
            }
        }
    }

    /// Keeps a snapshot.
    fn snapshot(&mut self, knows: &mut Client<'a>, name: &'a Text) -> Result<(), Refused>
        ensures told { (schema : DbSchema) (txns : List Begun)
            → TellsTurn schema (snapshot_turn (known txns knows.old) name.now)
            (known txns knows.old) (known txns knows.new) self.old.text.items self.new.text.items result }
        ensures keeps { (schema : DbSchema) (H : History) (txns : List Begun)
            → IsKnown schema H txns self.old knows.old
            → IfOk result (λ _. IsKnown schema H txns self.new knows.new) }
        ensures refuses { (schema : DbSchema) (H : History) (txns : List Begun)
            → IsKnown schema H txns self.old knows.old
            → IfErr result (λ e. (rule : Rule) → e ≡ refusals.By rule
            → IsKnown schema H txns self.new knows.new) }
        ensures kept { self.new ≡ record self.old { text = self.new.text } }
    {
        let sight = knows.sight()?;
        if knows.snapshots.names.place(name).is_some() {
            return Err(Refused::By(Rule::NameTaken));
        }
        knows.snapshots.add(self.alloc, name, sight)?;
        self.say_snapshot(sight)
    }

    /// Writes what is told of a snapshot.
    fn say_snapshot(&mut self, sight: Sight) -> Result<(), Refused>
        ensures said { OnOk result (self.new.text.items
            ≡ self.old.text.items ++ snapshot_text sight) }
        ensures short { IfErr result (λ e. e ≡ refusals.Memory) }
        ensures kept { self.new ≡ record self.old { text = self.new.text } }
    {
        write_numbered(b"snapshot @", sight.commits, &mut self.text)?;
        match sight.own {
            Some(_) => self.say(b"+"),
            None => Ok(()),
        }
    }

    /// Asks a question of what is seen, and keeps its watch.
    fn watch(
        &mut self,
        knows: &mut Client<'a>,
        sight: Sight,
        name: &'a Text,
        query: &'a Query,
    ) -> Result<(), Refused>
        requires known { AreKnown self.old knows.old }
        ensures told { (schema : DbSchema) (H : History) (txns : List Begun)
            → IsLawfulSchema schema → IsKnown schema H txns self.old knows.old
            → IsSightOf H txns sight → TurnTold schema H
            (watch_turn schema H (known txns knows.old) (Ok (sight_known txns sight)) name.now query.now)
            (known txns knows.old) self.old.text.items self.new knows.new result }
    {
        if knows.watching.watches.names.place(name).is_some() {
            return Err(Refused::By(Rule::NameTaken));
        }
        if sight.own.is_some() {
            return Err(Refused::By(Rule::Uncommitted));
        }
        self.table(query.table())?;
        if !is_watchable(query.ask()) {
            return Err(Refused::By(Rule::Question(AskError::Unwatchable)));
        }
        let at = look_up(self.alloc, self.schema, query.ask(), query)?;
        let has_row = self.answer(sight, query.ask(), &at)?;
        let watch = Watch {
            query,
            number: sight.commits,
            has_found: has_found(&at, has_row),
            at,
        };
        knows.watching.watches.add(self.alloc, name, watch)?;
        Ok(())
    }
}
