//! Lines of watches.
ghost use Rattle.std.specs.Prelude.{◌≡◌, ◌≤◌, ◌+◌, [], Decides, IfOk, List, Ok, OnOk, Some};
ghost use Rattle.std.specs.Prelude.{if◌then◌else◌, length, slice_get};
ghost use Rattle.mdb_datum.specs.Bytes.{Bytes};
ghost use Rattle.mdb_schema.specs.Guarded.{IsUnchanged};
ghost use Rattle.mdb_schema.specs.History.{History, IsMadeBy};
ghost use Rattle.mdb_schema.specs.Schema.{DbSchema};
ghost use Rattle.client_script.specs.Client as plain;
ghost use Rattle.client_script.specs.Watching.{check_judged};
ghost use Rattle.client_script.specs.declared.command.Command.TheVariants as commands;
ghost use Rattle.client_script.specs.declared.command.WatchesCommand.TheVariants as watches_lines;
ghost use Rattle.run_check.specs.declared.client.Client.{Client};
ghost use Rattle.run_check.specs.inner.ClientView.{known, watches_known};
ghost use Rattle.run_check.specs.inner.SessionView.{AreKnown, IsDue, IsKnown, TellsLine, TellsMade};
ghost use Rattle.run_check.specs.inner.SessionView.{TellsSize};
ghost use Rattle.run_check.specs.inner.StoreView.{Begun};

use crate::called::{awaited_both, awaited_set, limited_watch, looked_watch, watch_place};
use crate::client::Client;
use crate::decimal::number_behind;
use crate::reply::write_numbered;
use crate::session::{Refused, Sessions};
use client_script::WatchesCommand;
use mdb_datum::Text;
use std::alloc::AllocError;

impl<'a> Sessions<'a> {
    /// A line of watches.
    pub(super) fn watches(
        &mut self,
        client: usize,
        knows: &mut Client<'a>,
        line: &'a WatchesCommand,
        text: &[u8],
    ) -> Result<(), Refused>
        requires known { AreKnown self.old knows.old }
        ensures told { (schema : DbSchema) (H : History) (txns : List Begun)
            → IsKnown schema H txns self.old knows.old
            → IsDue schema H (client + 1) (known txns knows.old) text.now → self.old.text.items ≡ []
            → TellsLine schema H (client + 1) (commands.Watches line.now) text.now
            (known txns knows.old) self.new knows.new result }
    {
        match line {
            WatchesCommand::Check { name } => self.check(client, knows, name, text),
            WatchesCommand::Add { set, name } => {
                let place = watch_place(knows, name)?;
                self.add(knows, set, place, text)
            }
            WatchesCommand::AddLimit {
                set,
                limit,
                name,
                other,
            } => {
                let place = limited_watch(knows, set, *limit, name, other)?;
                self.add(knows, set, place, text)
            }
            WatchesCommand::Wait { set } => {
                let set = awaited_set(knows, set)?;
                self.wait(client, knows, set, None, text)
            }
            WatchesCommand::WaitUntil { set, until } => {
                let both = awaited_both(knows, set, until)?;
                self.wait(client, knows, both.0, Some(both.1), text)
            }
        }
    }

    /// Adds the watch at a place to a set.
    fn add(
        &mut self,
        knows: &mut Client<'a>,
        set: &'a Text,
        place: usize,
        text: &[u8],
    ) -> Result<(), Refused>
        ensures told { (schema : DbSchema) (H : History) (txns : List Begun) (w : plain.Watch)
            → IsKnown schema H txns self.old knows.old
            → slice_get (watches_known knows.old.watching) place ≡ Some w
            → TellsSize set.now w (known txns knows.old) (known txns knows.new)
            text.now self.old.text.items self.new.text.items result }
        ensures knows { OnOk result ((schema : DbSchema) (H : History) (txns : List Begun) (w : plain.Watch)
            → IsKnown schema H txns self.old knows.old
            → slice_get (watches_known knows.old.watching) place ≡ Some w
            → IsKnown schema H txns self.new knows.new) }
        ensures kept { self.new ≡ record self.old { text = self.new.text } }
    {
        let Some(size) = number_behind(b"size ", text) else {
            return Ok(());
        };
        let at = knows.watching.set_place(self.alloc, set)?;
        if !knows.watching.add(at, place, size)? {
            return Ok(());
        }
        write_numbered(b"size ", size, &mut self.text)?;
        Ok(())
    }

    /// Looks at a watch.
    fn check(
        &mut self,
        client: usize,
        knows: &mut Client<'a>,
        name: &Text,
        text: &[u8],
    ) -> Result<(), Refused>
        requires known { AreKnown self.old knows.old }
        ensures told { (schema : DbSchema) (H : History) (txns : List Begun)
            → IsKnown schema H txns self.old knows.old
            → IsDue schema H (client + 1) (known txns knows.old) text.now → self.old.text.items ≡ []
            → TellsLine schema H (client + 1) (commands.Watches (watches_lines.Check name.now)) text.now
            (known txns knows.old) self.new knows.new result }
    {
        let place = looked_watch(knows, name)?;
        self.look(client, knows, place, text)?;
        Ok(())
    }

    /// Looks at the watch at a place.
    fn look(
        &mut self,
        client: usize,
        knows: &mut Client<'a>,
        place: usize,
        text: &[u8],
    ) -> Result<(), AllocError>
        requires known { AreKnown self.old knows.old }
        ensures told { (schema : DbSchema) (H : History) (txns : List Begun) (name : Bytes) (w : plain.Watch)
            → IsKnown schema H txns self.old knows.old
            → IsDue schema H (client + 1) (known txns knows.old) text.now → self.old.text.items ≡ []
            → check_judged (known txns knows.old) name ≡ Ok w
            → slice_get (watches_known knows.old.watching) place ≡ Some w
            → OnOk result (TellsMade schema H (client + 1) (commands.Watches (watches_lines.Check name))
            text.now self.new.text.items (known txns knows.old) self.new knows.new) }
    {
        if let Some(number) = self.say_number(knows, b"quiet @", text)? {
            let quiet = self.place_is_quiet(client, knows, place, number)?;
            self.keep_if(quiet);
            return Ok(());
        }
        if let Some(number) = self.say_number(knows, b"fired @", text)? {
            let fired = self.place_has_fired(knows, Some(place), number);
            self.keep_if(fired);
            return Ok(());
        }
        Ok(())
    }

    /// Keeps the text if it may be told, and else clears it.
    pub(super) fn keep_if(&mut self, may: bool)
        ensures text { self.new.text.items ≡ (if may then self.old.text.items else []) }
        ensures kept { self.new ≡ record self.old { text = self.new.text } }
    {
        if !may {
            self.text.clear();
        }
    }

    /// Whether a client may be told that the watch at a place is quiet after so many commits.
    pub(super) fn place_is_quiet(
        &self,
        client: usize,
        knows: &Client<'a>,
        place: usize,
        commits: u64,
    ) -> Result<bool, AllocError>
        requires known { AreKnown self.now knows.now }
        ensures { (schema : DbSchema) (H : History) (txns : List Begun) (w : plain.Watch)
            → IsKnown schema H txns self.now knows.now
            → slice_get (watches_known knows.now.watching) place ≡ Some w → commits ≤ length H
            → IfOk result (λ is_quiet. Decides is_quiet
            (IsUnchanged schema H (client + 1) w.query w.number commits)) }
    {
        match knows.watching.watches.at(place) {
            Some(watch) => {
                let indexes = self.store.table(watch.at.table);
                let is_own = self.is_own(client, commits);
                watch.is_quiet(self.alloc, indexes, commits, is_own)
            }
            None => Ok(false),
        }
    }

    /// Whether the commit of a number is a client's own.
    fn is_own(&self, client: usize, number: u64) -> bool
        ensures { (schema : DbSchema) (H : History) (txns : List Begun) (v : Client)
            → IsKnown schema H txns self.now v → Decides result (IsMadeBy H (client + 1) number) }
    {
        let Some(place) = number.checked_sub(1) else {
            return false;
        };
        let Some(at) = self.order.get(place as usize) else {
            return false;
        };
        match self.commits.get(*at) {
            Some(commit) => commit.client == client,
            None => false,
        }
    }
}
