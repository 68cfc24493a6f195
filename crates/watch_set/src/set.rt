//! Sets of watches.
ghost use Rattle.std.specs.Prelude.{◌≡◌, ◌<◌, [], IfOk, IfSome, OnErr, OnOk, false, length, not};
ghost use Rattle.std.specs.Prelude.{option_copied, option_map, slice_get};
ghost use Rattle.mem_txn.specs.Checked.{IsHeldBy};
ghost use Rattle.mem_txn.specs.Database.{Caller, IsOf};
ghost use Rattle.watch_set.specs.Checks.{AnswersLook, AnswersWait, KeepsHeld, OnlyLooks};
ghost use Rattle.watch_set.specs.Members.{HaveDistinctCells, AreHeldBy, cell_id, chosen, has_cell};
ghost use Rattle.watch_set.specs.Members.{watches_of, with_watch};

use crate::look::{look_at, look_until, read};
use crate::member::{Member, are_watching};
use crate::woken::Woken;
use mdb_datum::Text;
use mem_txn::{Db, Held, Pass};
use std::alloc::{AllocError, Global};
use std::marker::Model;
use std::sync::Wait;

/// Watches under names, each of another cell, in the order in which they were added.
#[derive(Drop)]
pub struct WatchSet {
    members: Vec<Member>,
}

impl Model for WatchSet {
    ghost use Rattle.std.specs.Prelude.{List};
    ghost use Rattle.watch_set.specs.Members.{HaveDistinctCells, Member};
    ghost use Rattle.watch_set.specs.inner.SetView.{members_code};

    ghost Value = { List Member };

    ghost coded = { members_code };

    ghost view = { λ s. s.members.items };

    ghost invariant = { λ s. HaveDistinctCells s.members.items };
}

impl WatchSet {
    /// A set without members. It takes no memory.
    pub fn new(alloc: Global) -> WatchSet
        ensures { result ≡ [] }
    {
        WatchSet {
            members: Vec::new(alloc),
        }
    }

    /// The number of members, of which each watches another cell.
    pub fn len(&self) -> usize
        ensures count { result ≡ length self.now }
        ensures distinct { HaveDistinctCells self.now }
    {
        self.members.len()
    }

    /// The name of the member at a place, counted from 0.
    pub fn name(&self, place: usize) -> Option<&Text>
        ensures { option_copied result ≡ option_map (λ m. m.name) (slice_get self.now place) }
    {
        match self.members.get(place) {
            Some(member) => Some(&member.name),
            None => None,
        }
    }

    /// The watch of the member at a place, counted from 0; nothing where there is no such place. It
    /// takes no memory.
    pub fn held(&self, place: usize) -> Option<&Held>
        ensures { option_copied result ≡ option_map (λ m. m.held) (slice_get self.now place) }
    {
        match self.members.get(place) {
            Some(member) => Some(&member.held),
            None => None,
        }
    }

    /// Adds a watch under a name, at the end, unless a member has its cell already; tells whether
    /// it was added. It looks at each member, and takes memory for a copy of the name and for the
    /// member, only where it adds one. `AllocError` comes for want of memory, or where the kit's
    /// `Arc` refuses one more owner of the watch; then the set is as before.
    #[tactic(auto, using(crate::proofs::CellsDiffer::distinct_after, crate::proofs::CellsDiffer::held_after))]
    pub fn add(&mut self, name: &Text, held: &Held) -> Result<bool, AllocError>
        ensures added { IfOk result (λ b. b ≡ not (has_cell (cell_id held.now) self.old)) }
        ensures set { OnOk result (self.new ≡ with_watch name.now held.now self.old) }
        ensures kept { OnErr result (self.new ≡ self.old) }
        ensures lacks { OnErr result (has_cell (cell_id held.now) self.old ≡ false) }
        ensures held { (p : Caller) → AreHeldBy p (watches_of self.old) → IsHeldBy p held.now
            → AreHeldBy p (watches_of self.new) }
    {
        if are_watching(&self.members, held) {
            return Ok(false);
        }
        let member = Member::of(*self.members.allocator(), name, held)?;
        self.members.push(member)?;
        Ok(true)
    }

    /// The same of one watch while there are fewer members than the limit, and of the other
    /// from then on, as for a watch of a whole table in place of many of its rows.
    pub fn add_with_limit(
        &mut self,
        limit: usize,
        name: &Text,
        held: &Held,
        other: &Text,
        alternative: &Held,
    ) -> Result<bool, AllocError>
        ensures added { let m = chosen limit self.old (record { name = name.now; held = held.now })
            (record { name = other.now; held = alternative.now }) in
            IfOk result (λ b. b ≡ not (has_cell (cell_id m.held) self.old)) }
        ensures set { let m = chosen limit self.old (record { name = name.now; held = held.now })
            (record { name = other.now; held = alternative.now }) in
            OnOk result (self.new ≡ with_watch m.name m.held self.old) }
        ensures kept { OnErr result (self.new ≡ self.old) }
        ensures lacks { let m = chosen limit self.old (record { name = name.now; held = held.now })
            (record { name = other.now; held = alternative.now }) in
            OnErr result (has_cell (cell_id m.held) self.old ≡ false) }
        ensures held { (p : Caller) → AreHeldBy p (watches_of self.old) → IsHeldBy p held.now
            → IsHeldBy p alternative.now → AreHeldBy p (watches_of self.new) }
    {
        if self.len() < limit {
            self.add(name, held)
        } else {
            self.add(other, alternative)
        }
    }

    /// Checks each member in order, and then what cancels, up to the first that isn't quiet, and
    /// tells which; nothing where each is quiet. All are checked in one state, by a load of each
    /// cell's word; where a commit that isn't in it yet has fired a cell, the state is read again and
    /// the checks go on. It takes no memory, and may wait while another caller commits. `AllocError`
    /// comes where the state can't get one more owner, and the pass may have seen more by then.
    pub fn look_once<R: Wait>(
        &self,
        rt: &R,
        db: &Db,
        pass: &mut Pass,
        until: Option<&Held>,
    ) -> Result<Option<Woken>, AllocError>
        requires own { IsOf db.now pass.old }
        requires held { AreHeldBy pass.old (watches_of self.now) }
        requires until { IfSome until (λ h. IsHeldBy pass.old h.now) }
        ensures look { IfOk result (λ w.
            AnswersLook pass.old pass.new self.now (option_copied until.entry) w) }
        ensures keeps { KeepsHeld pass.old pass.new }
        ensures held { AreHeldBy pass.new (watches_of self.now) }
        ensures looks { OnlyLooks pass.old pass.new }
    {
        let mut state = read(rt, db, pass)?;
        match look_at(rt, db, pass, &mut state, &self.members)? {
            Some(woken) => Ok(Some(woken)),
            None => look_until(rt, db, pass, &mut state, until),
        }
    }

    /// Looks, and sleeps until a commit has fired a cell on which somebody sleeps, until a member has
    /// fired or what cancels has. It may wait for ever. It is refused as a look is, and where the
    /// waits of the database have been ended by [`Db::end_waits`].
    pub fn wait<R: Wait>(
        &self,
        rt: &R,
        db: &Db,
        pass: &mut Pass,
        until: Option<&Held>,
    ) -> Result<Woken, AllocError>
        requires some { 0 < length self.now }
        requires own { IsOf db.now pass.old }
        requires held { AreHeldBy pass.old (watches_of self.now) }
        requires until { IfSome until (λ h. IsHeldBy pass.old h.now) }
        ensures woken { IfOk result (λ w.
            AnswersWait pass.old pass.new self.now (option_copied until.entry) w) }
        ensures keeps { KeepsHeld pass.old pass.new }
        ensures looks { OnlyLooks pass.old pass.new }
    {
        let mut attended = false;
        for _ in rt.forever() {
            let next = db.next_commit();
            if let Some(woken) = self.look_once(rt, db, pass, until).transpose() {
                return woken;
            }
            if !attended {
                // A commit that fires an attended cell wakes who sleeps, so look once more.
                self.attend(until);
                attended = true;
                continue;
            }
            match next {
                Some(next) => next.wait(rt),
                None => return Err(AllocError),
            }
        }
        unreachable!()
    }

    /// Says of the cell of each member, and of what cancels, that somebody is about to sleep until
    /// it fires.
    fn attend(&self, until: Option<&Held>) {
        for member in &self.members {
            member.held.watch().attend();
        }
        if let Some(held) = until {
            held.watch().attend();
        }
    }
}
