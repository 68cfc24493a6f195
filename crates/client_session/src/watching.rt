//! What a client watches, and the turns of the lines of watches.
ghost use Rattle.std.specs.Prelude.{◌≡◌, ℕ, IfOk, IfSome, None, cond, false, is_some};
ghost use Rattle.std.specs.Prelude.{option_copied, option_map};
ghost use Rattle.std.specs.BTreeMap.{get_by_text};
ghost use Rattle.std.specs.Str.{bytes_eq};
ghost use Rattle.mdb_datum.specs.Bytes.{Bytes};
ghost use Rattle.client_script.specs.Client.{Client, Sight, nothing_watched};
ghost use Rattle.client_script.specs.Turn.{outcome, size_turn};
ghost use Rattle.client_script.specs.declared.command.WatchesCommand.TheVariants as watches_line;
ghost use Rattle.client_session.specs.Waiting.{awaited_of};
ghost use Rattle.client_session.specs.inner.ReplyOf.{reply_of};
ghost use Rattle.client_session.specs.inner.SetsKept.{IsThere, PutsBack, RepliesOnce, RepliesWoken};
ghost use Rattle.client_session.specs.inner.SetsKept.{awaited_in, look_reply, members_in};
ghost use Rattle.client_session.specs.inner.WatchingView.{AsksWatch, HasLookedOn, Holds, IsSeenIn};
ghost use Rattle.client_session.specs.inner.WatchingView.{IsReadBy, Knows};
ghost use Rattle.client_session.specs.inner.WatchingView.{TellsLook, TellsOnce, WatchTold};
ghost use Rattle.client_session.specs.inner.WatchingView.{wait_for};
ghost use Rattle.mem_txn.specs.Checked.{IdsTellCells};
ghost use Rattle.mem_txn.specs.Database.{Caller, IsOf};

use crate::named::Named;
use crate::refusal::refused;
use crate::reply::Reply;
use crate::waits_for::WaitsFor;
use client_script::Rule;
use mdb_datum::Text;
use mdb_schema::Query;
use mem_txn::pass_laws::{moves_are_touches, trees_are_complete};
use mem_txn::{Db, Held, Look, Pass, ReadTxn};
use std::alloc::{AllocError, Global};
use std::sync::Wait;
use watch_set::{WatchSet, Woken};

/// A client's watches, and its sets of them.
#[derive(Drop)]
pub(crate) struct Watching {
    pub(crate) watches: Named<Held>,
    pub(crate) sets: Named<WatchSet>,
}

impl Watching {
    /// Nothing is watched. It takes no memory.
    pub(crate) fn new(alloc: Global) -> Watching
        ensures knows { (p : Caller) → Knows p result nothing_watched }
        ensures holds { (p : Caller) → Holds p result }
    {
        Watching {
            watches: Named::new(alloc),
            sets: Named::new(alloc),
        }
    }

    /// Asks a question of a state that is read, and keeps the answer's watch under a name.
    /// `reading` is `None` where what is asked isn't committed.
    pub(crate) fn ask(
        &mut self,
        alloc: Global,
        name: &Text,
        reading: Option<&ReadTxn>,
        query: &Query,
    ) -> Result<Reply, AllocError>
        ensures { IfOk result (λ r. (p : Caller) (v : Client) (s : Sight)
            → Knows p self.old v.watching → Holds p self.old
            → IsSeenIn p (option_copied reading.entry) s
            → AsksWatch p self.new v s name.now query.now (reply_of p.schema r)) }
    {
        if self.watches.has(name) {
            return Ok(Reply::Refused(Rule::NameTaken));
        }
        let Some(txn) = reading else {
            return Ok(Reply::Refused(Rule::Uncommitted));
        };
        self.ask_read(alloc, name, txn, query)
    }

    /// Asks a question of a state that is read, and keeps the answer's watch under a name that no
    /// watch has.
    fn ask_read(
        &mut self,
        alloc: Global,
        name: &Text,
        txn: &ReadTxn,
        query: &Query,
    ) -> Result<Reply, AllocError>
        requires free { is_some (get_by_text self.old.watches.kept name.now) ≡ false }
        ensures { IfOk result (λ r. (p : Caller) (v : Client) (s : Sight)
            → Knows p self.old v.watching → Holds p self.old → IsReadBy p txn.now s
            → AsksWatch p self.new v s name.now query.now (reply_of p.schema r)) }
    {
        match txn.ask_watch(query) {
            Ok((answer, held)) => {
                self.watches.keep(alloc, name, held)?;
                Ok(Reply::Answered(answer))
            }
            Err(error) => refused(Rule::of_question(error)),
        }
    }

    /// Adds the watch of a name to a set.
    pub(crate) fn add(
        &mut self,
        alloc: Global,
        set: &Text,
        name: &Text,
    ) -> Result<Reply, AllocError>
        ensures { IfOk result (λ r. (p : Caller) (now : ℕ) (v : Client) → IdsTellCells p
            → Knows p self.old v.watching → Holds p self.old
            → WatchTold p now self.new v (watches_line.Add set.now name.now) (reply_of p.schema r)) }
    {
        let Some(held) = self.watches.get(name) else {
            return Ok(Reply::Refused(Rule::UnknownName));
        };
        let mut members = taken(&mut self.sets, alloc, set);
        members.add(name, held)?;
        put_back(&mut self.sets, alloc, set, members)
    }

    /// Adds the one watch to a set while that has fewer members than the limit, and otherwise the
    /// other.
    pub(crate) fn add_limit(
        &mut self,
        alloc: Global,
        set: &Text,
        limit: u32,
        name: &Text,
        other: &Text,
    ) -> Result<Reply, AllocError>
        ensures { IfOk result (λ r. (p : Caller) (now : ℕ) (v : Client) → IdsTellCells p
            → Knows p self.old v.watching → Holds p self.old
            → WatchTold p now self.new v
            (watches_line.AddLimit set.now limit name.now other.now) (reply_of p.schema r)) }
    {
        let (Some(held), Some(alternative)) = (self.watches.get(name), self.watches.get(other))
        else {
            return Ok(Reply::Refused(Rule::UnknownName));
        };
        let mut members = taken(&mut self.sets, alloc, set);
        members.add_with_limit(limit as usize, name, held, other, alternative)?;
        put_back(&mut self.sets, alloc, set, members)
    }

    /// How many members the set of a name has.
    pub(crate) fn size(&self, set: &Text) -> Reply
        ensures { (p : Caller) (v : Client) → Knows p self.now v.watching
            → outcome v (size_turn v set.now) ≡ (reply_of p.schema result, v) }
    {
        match self.sets.get(set) {
            Some(members) => Reply::Sized(members.len()),
            None => Reply::Refused(Rule::UnknownName),
        }
    }

    /// Whether the watch of a name has fired.
    pub(crate) fn check<R: Wait>(
        &self,
        rt: &R,
        db: &Db,
        pass: &mut Pass,
        name: &Text,
    ) -> Result<Reply, AllocError>
        requires own { IsOf db.now pass.old }
        requires holds { Holds pass.old self.now }
        ensures told { IfOk result (λ r. TellsLook self.now (watches_line.Check name.now)
            pass.old pass.new (reply_of pass.old.schema r)) }
        ensures looked { HasLookedOn pass.old pass.new }
    {
        let Some(held) = self.watches.get(name) else {
            return Ok(Reply::Refused(Rule::UnknownName));
        };
        let look = db.check(rt, pass, held)?;
        moves_are_touches(pass);
        trees_are_complete(pass);
        Ok(look_reply(look))
    }

    /// Waits till a member of a set has fired, or the watch that cancels, if there is one.
    pub(crate) fn wait<R: Wait>(
        &self,
        rt: &R,
        alloc: Global,
        db: &Db,
        pass: &mut Pass,
        set: &Text,
        until: Option<&Text>,
    ) -> Result<Reply, AllocError>
        requires own { IsOf db.now pass.old }
        requires holds { Holds pass.old self.now }
        ensures told { IfOk result (λ r. TellsLook self.now
            (wait_for set.now (option_copied until.entry)) pass.old pass.new
            (reply_of pass.old.schema r)) }
        ensures looked { HasLookedOn pass.old pass.new }
    {
        let Some(waits) = self.awaited(set, until) else {
            return Ok(Reply::Refused(Rule::UnknownName));
        };
        let woken = waits.set.wait(rt, db, pass, waits.until)?;
        moves_are_touches(pass);
        trees_are_complete(pass);
        woken_reply(alloc, waits.set, woken)
    }

    /// The same, but for one look at each. It gives no reply where all are quiet.
    pub(crate) fn look_once<R: Wait>(
        &self,
        rt: &R,
        alloc: Global,
        db: &Db,
        pass: &mut Pass,
        set: &Text,
        until: Option<&Text>,
    ) -> Result<Option<Reply>, AllocError>
        requires own { IsOf db.now pass.old }
        requires holds { Holds pass.old self.now }
        ensures told { IfOk result (λ r. TellsOnce self.now
            (wait_for set.now (option_copied until.entry)) pass.old pass.new
            (option_map (reply_of pass.old.schema) r)) }
        ensures looked { HasLookedOn pass.old pass.new }
    {
        let Some(waits) = self.awaited(set, until) else {
            return Ok(Some(Reply::Refused(Rule::UnknownName)));
        };
        let woken = waits.set.look_once(rt, db, pass, waits.until)?;
        moves_are_touches(pass);
        trees_are_complete(pass);
        once_reply(alloc, waits.set, woken)
    }

    /// The set of a name, and the watch that cancels a wait for it, if there is one; nothing where
    /// a name is unknown.
    pub(crate) fn awaited(&self, set: &Text, until: Option<&Text>) -> Option<WaitsFor<'_>>
        ensures { option_map awaited_of result
            ≡ awaited_in self.now set.now (option_copied until.entry) }
    {
        let set = self.sets.get(set)?;
        match until {
            Some(name) => {
                let until = Some(self.watches.get(name)?);
                Some(WaitsFor { set, until })
            }
            None => Some(WaitsFor { set, until: None }),
        }
    }
}

/// The set of a name, taken out, or a new one where there is none. It is gone where no memory is
/// found before it is put back; the session then carries out no further line.
fn taken(sets: &mut Named<WatchSet>, alloc: Global, set: &Text) -> WatchSet
    ensures members { result ≡ members_in sets.old set.now }
    ensures left { (q : Bytes) → get_by_text sets.new.kept q
        ≡ cond (bytes_eq set.now q) None (get_by_text sets.old.kept q) }
{
    match sets.take(set) {
        Some(members) => members,
        None => WatchSet::new(alloc),
    }
}

/// Puts a set back under its name, and tells its size.
fn put_back(
    sets: &mut Named<WatchSet>,
    alloc: Global,
    set: &Text,
    members: WatchSet,
) -> Result<Reply, AllocError>
    ensures { IfOk result (λ r. PutsBack sets.old sets.new set.now members r) }
{
    let size = members.len();
    sets.keep(alloc, set, members)?;
    Ok(Reply::Sized(size))
}

/// The reply to a check.
fn look_reply(look: Look) -> Reply
    ensures { result ≡ look_reply look }
{
    match look {
        Look::Quiet { at } => Reply::QuietAt(at),
        Look::Fired { at } => Reply::FiredAt(at),
    }
}

/// The reply to a wait that has ended.
fn woken_reply(alloc: Global, members: &WatchSet, woken: Woken) -> Result<Reply, AllocError>
    requires { IsThere members.now woken }
    ensures { IfOk result (λ r. RepliesWoken members.now woken r) }
{
    match woken {
        Woken::Fired { place, at } => match members.name(place) {
            Some(name) => Ok(Reply::WokenBy(Text::of(alloc, name.as_str())?, at)),
            None => unreachable!(),
        },
        Woken::Stopped { at } => Ok(Reply::StoppedAt(at)),
    }
}

/// The reply to one look at what a wait waits for. It gives none where all were quiet.
fn once_reply(
    alloc: Global,
    members: &WatchSet,
    woken: Option<Woken>,
) -> Result<Option<Reply>, AllocError>
    requires { IfSome woken (IsThere members.now) }
    ensures { IfOk result (λ r. RepliesOnce members.now woken r) }
{
    let Some(woken) = woken else {
        return Ok(None);
    };
    Ok(Some(woken_reply(alloc, members, woken)?))
}
