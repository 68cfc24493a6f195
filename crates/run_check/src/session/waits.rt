//! Lines that wait for a watch.
ghost use Rattle.std.specs.Prelude.{◌≡◌, ◌<◌, ◌≤◌, ◌+◌, [], Decides, IfErr, IfOk, IfSome, IsSome, List, None};
ghost use Rattle.std.specs.Prelude.{OnOk, Option, Some, ◌++◌, codes, length, option_and_then, slice_get, take};
ghost use Rattle.mdb_schema.specs.History.{History};
ghost use Rattle.mdb_schema.specs.Schema.{DbSchema};
ghost use Rattle.client_script.specs.Client as plain;
ghost use Rattle.client_script.specs.declared.command.Command.TheVariants as commands;
ghost use Rattle.client_script.specs.declared.command.WatchesCommand.{WatchesCommand};
ghost use Rattle.client_script.specs.Watching.{AreUnchanged};
ghost use Rattle.run_check.specs.TextLines.{number_behind};
ghost use Rattle.run_check.specs.declared.session.Refused.TheVariants as refusals;
ghost use Rattle.run_check.specs.declared.watching.Set.{Set};
ghost use Rattle.run_check.specs.inner.ClientView.{known, watches_at, watches_known};
ghost use Rattle.run_check.specs.inner.SessionView.{AreKnown, IsDue, IsKnown, IsSound, IsWaitFor};
ghost use Rattle.run_check.specs.inner.SessionView.{TellsLine, TellsMade};
ghost use Rattle.run_check.specs.inner.StoreView.{Begun};
ghost use Rattle.run_check.specs.inner.WaitView.{ArePlaced, HasFiredAt, IsEnd, TellsMember};

use crate::behind::behind;
use crate::client::Client;
use crate::decimal::number_behind;
use crate::member::{Woken, member_named};
use crate::session::{Refused, Sessions};
use mdb_datum::Text;
use std::alloc::AllocError;

impl<'a> Sessions<'a> {
    /// Waits for the members of the set at a place, or for the watch that cancels.
    pub(super) fn wait(
        &mut self,
        client: usize,
        knows: &mut Client<'a>,
        set: usize,
        until: Option<usize>,
        text: &[u8],
    ) -> Result<(), Refused>
        requires known { AreKnown self.old knows.old }
        ensures told { (schema : DbSchema) (H : History) (txns : List Begun) (line : WatchesCommand)
            (s : plain.WatchSet) (u : Option plain.Watch)
            → IsKnown schema H txns self.old knows.old
            → IsDue schema H (client + 1) (known txns knows.old) text.now → self.old.text.items ≡ []
            → IsWaitFor (known txns knows.old) line s u
            → slice_get (known txns knows.old).watching.sets set ≡ Some s
            → option_and_then (slice_get (watches_known knows.old.watching)) until ≡ u
            → TellsLine schema H (client + 1) (commands.Watches line) text.now
            (known txns knows.old) self.new knows.new result }
        ensures short { IfErr result (λ e. e ≡ refusals.Memory) }
    {
        match number_behind(b"stopped @", text) {
            Some(_) => self.stopped(client, knows, set, until, text)?,
            None => self.woken(client, knows, set, text)?,
        }
        Ok(())
    }

    /// That the watch which cancels has fired, and all members were quiet.
    fn stopped(
        &mut self,
        client: usize,
        knows: &mut Client<'a>,
        set: usize,
        until: Option<usize>,
        text: &[u8],
    ) -> Result<(), AllocError>
        requires known { AreKnown self.old knows.old }
        ensures told { (schema : DbSchema) (H : History) (txns : List Begun) (line : WatchesCommand)
            (s : plain.WatchSet) (u : Option plain.Watch)
            → IsKnown schema H txns self.old knows.old
            → IsDue schema H (client + 1) (known txns knows.old) text.now → self.old.text.items ≡ []
            → IsWaitFor (known txns knows.old) line s u
            → slice_get (known txns knows.old).watching.sets set ≡ Some s
            → option_and_then (slice_get (watches_known knows.old.watching)) until ≡ u
            → IsSome (number_behind (codes "stopped @") text.now)
            → OnOk result (TellsMade schema H (client + 1) (commands.Watches line) text.now
            self.new.text.items (known txns knows.old) self.new knows.new) }
    {
        let last = knows.last;
        let Some(number) = self.say_number(knows, b"stopped @", text)? else {
            return Ok(());
        };
        let Some(members) = knows.watching.sets.at(set) else {
            return Ok(());
        };
        let may = self.may_end(client, knows, &members.members, last, until, number)?;
        self.keep_if(may);
        Ok(())
    }

    /// That a member has fired, and those before it were quiet.
    fn woken(
        &mut self,
        client: usize,
        knows: &mut Client<'a>,
        set: usize,
        text: &[u8],
    ) -> Result<(), AllocError>
        requires known { AreKnown self.old knows.old }
        ensures told { (schema : DbSchema) (H : History) (txns : List Begun) (line : WatchesCommand)
            (s : plain.WatchSet) (u : Option plain.Watch)
            → IsKnown schema H txns self.old knows.old
            → IsDue schema H (client + 1) (known txns knows.old) text.now → self.old.text.items ≡ []
            → IsWaitFor (known txns knows.old) line s u
            → slice_get (known txns knows.old).watching.sets set ≡ Some s
            → number_behind (codes "stopped @") text.now ≡ None
            → OnOk result (TellsMade schema H (client + 1) (commands.Watches line) text.now
            self.new.text.items (known txns knows.old) self.new knows.new) }
    {
        let last = knows.last;
        let Some(told) = told_member(knows, set, text) else {
            return Ok(());
        };
        self.say_fired(told.name)?;
        let Some(number) = self.say_number(knows, b" @", told.behind)? else {
            // A name without its number is no reply.
            self.text.clear();
            return Ok(());
        };
        let may = self.may_wake(client, knows, set, told.place, last, number)?;
        self.keep_if(may);
        Ok(())
    }

    /// Writes that the member of a name has fired, all but the number.
    fn say_fired(&mut self, name: &Text) -> Result<(), AllocError>
        ensures said { OnOk result (self.new.text.items
            ≡ self.old.text.items ++ (codes "fired " ++ name.now)) }
        ensures kept { self.new ≡ record self.old { text = self.new.text } }
    {
        self.text.extend_from_slice(b"fired ")?;
        self.text.extend_from_slice(name.as_str().as_bytes())
    }

    /// Whether the member at a place of a set may end a wait: it may be told to have fired after so
    /// many commits, and those before it were quiet when the wait began.
    fn may_wake(
        &self,
        client: usize,
        knows: &Client<'a>,
        set: usize,
        place: usize,
        last: u64,
        number: u64,
    ) -> Result<bool, AllocError>
        requires known { AreKnown self.now knows.now }
        requires within { (s : Set) → slice_get knows.now.watching.sets.values.items set ≡ Some s
            → place < length s.members.items }
        ensures { (schema : DbSchema) (H : History) (txns : List Begun) (s : Set)
            → IsKnown schema H txns self.now knows.now → last ≤ length H
            → slice_get knows.now.watching.sets.values.items set ≡ Some s
            → ArePlaced (watches_known knows.now.watching) s.members.items
            → IfOk result (λ may. Decides may (IsEnd schema H (client + 1)
            (watches_known knows.now.watching) (take place s.members.items) last
            (slice_get s.members.items place) number)) }
    {
        let Some(found) = knows.watching.sets.at(set) else {
            return Ok(false);
        };
        let (before, _) = found.members.split_at(place);
        let fired = found.members.get(place).copied();
        self.may_end(client, knows, before, last, fired, number)
    }

    /// Whether a wait may end so: the watch at a place is there and may be told to have fired after so
    /// many commits, and those at other places were quiet when the wait began.
    fn may_end(
        &self,
        client: usize,
        knows: &Client<'a>,
        quiet: &[usize],
        last: u64,
        fired: Option<usize>,
        number: u64,
    ) -> Result<bool, AllocError>
        requires known { AreKnown self.now knows.now }
        ensures { (schema : DbSchema) (H : History) (txns : List Begun)
            → IsKnown schema H txns self.now knows.now → last ≤ length H
            → ArePlaced (watches_known knows.now.watching) quiet.now
            → IfOk result (λ may. Decides may (IsEnd schema H (client + 1)
            (watches_known knows.now.watching) quiet.now last fired number)) }
    {
        if !self.place_has_fired(knows, fired, number) {
            return Ok(false);
        }
        self.are_quiet(client, knows, quiet, last)
    }

    /// Whether a place is that of a watch that may be told to have fired after so many commits.
    pub(super) fn place_has_fired(
        &self,
        knows: &Client<'a>,
        place: Option<usize>,
        commits: u64,
    ) -> bool
        requires known { AreKnown self.now knows.now }
        ensures { (schema : DbSchema) (H : History) (txns : List Begun)
            → IsKnown schema H txns self.now knows.now
            → Decides result (HasFiredAt schema H (watches_known knows.now.watching) place commits) }
    {
        let Some(place) = place else {
            return false;
        };
        match knows.watching.watches.at(place) {
            Some(watch) => watch.has_fired(self.store.table(watch.at.table), commits),
            None => false,
        }
    }

    /// Whether the watches at these places may be told to be quiet after so many commits.
    fn are_quiet(
        &self,
        client: usize,
        knows: &Client<'a>,
        places: &[usize],
        commits: u64,
    ) -> Result<bool, AllocError>
        requires known { AreKnown self.now knows.now }
        ensures { (schema : DbSchema) (H : History) (txns : List Begun)
            → IsKnown schema H txns self.now knows.now → commits ≤ length H
            → ArePlaced (watches_known knows.now.watching) places.now
            → IfOk result (λ quiet. Decides quiet (AreUnchanged schema H (client + 1)
            (watches_at (watches_known knows.now.watching) places.now) commits)) }
    {
        for place in places {
            if !self.place_is_quiet(client, knows, *place, commits)? {
                return Ok(false);
            }
        }
        Ok(true)
    }
}

/// The first member of the set at a place that a text tells to have fired, by its name.
fn told_member<'a, 't>(knows: &Client<'a>, set: usize, text: &'t [u8]) -> Option<Woken<'a, 't>>
    ensures told { (schema : DbSchema) (H : History) (txns : List Begun) (s : plain.WatchSet)
        → IsSound schema H txns knows.now
        → slice_get (known txns knows.now).watching.sets set ≡ Some s
        → TellsMember s.members text.now result }
    ensures within { (s : Set) → slice_get knows.now.watching.sets.values.items set ≡ Some s
        → IfSome result (λ told. told.place < length s.members.items) }
{
    let rest = behind(b"fired ", text)?;
    member_named(&knows.watching, set, rest)
}
