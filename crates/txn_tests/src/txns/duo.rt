//! Two callers of a database, of whom the first holds a watch and a set of watches.
ghost use Rattle.std.specs.Prelude.{◌≡◌, IfOk, IfSome};
ghost use Rattle.mem_txn.specs.CallerOf.{IsCaller};
ghost use Rattle.mem_txn.specs.Checked.{HasHeard, IsHeldBy};
ghost use Rattle.mem_txn.specs.Database.{IsOf, reading_of};
ghost use Rattle.watch_set.specs.Checks.{KeepsHeld};
ghost use Rattle.watch_set.specs.Members.{AreHeldBy, watches_of};

use super::sets::set_of;
use super::steps::{Asked, Step, committed_steps};
use super::watches::watched_of;
use super::{SCHEMA, Told, Txn, are_both, closed, is_told, pair, query_of};
use mdb_schema::{Answer, Query};
use mem_txn::pass_laws::{asked_watches_are_held, held_watches_outlast_commits, held_watches_stay};
use mem_txn::{BeginRefused, Db, Held, Look, Pass, Passes, ReadTxn};
use std::alloc::{AllocError, Global};
use std::marker::Model;
use std::sync::Wait;
use watch_set::{WatchSet, Woken};

/// Who writes, and what is told of it.
#[derive(Clone, Copy)]
pub enum Way {
    /// The first caller commits steps.
    Own,
    /// The second one does.
    Other,
    /// The second one does, and the watch that has fired by it is late in the state that the first one
    /// has read before.
    Late,
    /// The first one begins a transaction, whose front tells whether the watch has fired, and aborts it.
    Begin,
}

/// Two callers of a database, and the watch and the set that the first one holds.
pub struct Duo {
    alloc: Global,
    db: Db,
    passes: Passes,
    one: Pass,
    two: Pass,
    held: Option<Held>,
    set: WatchSet,
}

impl Model for Duo {
    ghost use Rattle.std.specs.Prelude.{◌≡◌, [], IfSome};
    ghost use Rattle.mem_txn.specs.CallerOf.{IsCaller};
    ghost use Rattle.mem_txn.specs.Checked.{IsHeldBy};
    ghost use Rattle.watch_set.specs.Members.{AreHeldBy, watches_of};

    ghost Value = { Unit {0} };

    ghost view = { λ d. tt };

    ghost invariant = { λ d. IsCaller d.db 1 d.one × IsCaller d.db 2 d.two × (d.db.callers ≡ 2)
        × (d.passes ≡ record { passes = []; made = 2 })
        × IfSome d.held (IsHeldBy d.one) × AreHeldBy d.one (watches_of d.set) };
}

impl Duo {
    /// The callers of a new database.
    pub fn opened(alloc: Global) -> Result<Duo, AllocError> {
        let (db, passes, one, two) = pair(alloc, SCHEMA)?;
        let set = WatchSet::new(alloc);
        Ok(Duo {
            alloc,
            db,
            passes,
            one,
            two,
            held: None,
            set,
        })
    }

    /// Closes the database.
    pub fn close<R: Wait>(self, rt: &R) {
        let Duo {
            alloc: _,
            db,
            passes,
            one,
            two,
            held,
            set,
        } = self;
        drop(held);
        drop(set);
        drop(closed(rt, db, passes, one, two));
    }

    /// Whether what callers do with these steps is right, where `fires` tells whether the watch fires by
    /// them.
    #[tactic(auto, using(watch_set::proofs::ChecksInTurn::all_kept, crate::proofs::StillHeld::one_kept))]
    pub fn write<R: Wait>(
        self,
        rt: &R,
        way: Way,
        steps: &'static [Step],
        fires: bool,
    ) -> (Duo, Told) {
        let Duo {
            alloc,
            db,
            passes,
            one,
            two,
            held,
            set,
        } = self;
        let (one, two, told) = write_so(rt, alloc, &db, one, two, way, steps, &held, fires);
        let duo = Duo {
            alloc,
            db,
            passes,
            one,
            two,
            held,
            set,
        };
        (duo, told)
    }

    /// Holds the watch of a question, and tells whether it has this answer.
    #[tactic(auto, using(watch_set::proofs::ChecksInTurn::all_kept, crate::proofs::StillHeld::one_kept))]
    pub fn hold<R: Wait>(&mut self, rt: &R, asked: &Asked) -> Told {
        match held_now(rt, self.alloc, &self.db, &mut self.one, asked) {
            Ok(held) => {
                self.held = Some(held);
                Ok(true)
            }
            Err(AllocError) => Err(AllocError),
        }
    }

    /// Whether the watch has fired, asked by a front of the database.
    pub fn has_moved(&self) -> bool {
        match &self.held {
            Some(held) => held.watch().moved(&self.db.front()).fired,
            None => false,
        }
    }

    /// Whether a check of the watch tells this.
    #[tactic(auto, using(watch_set::proofs::ChecksInTurn::all_kept, crate::proofs::StillHeld::one_kept))]
    pub fn checks<R: Wait>(&mut self, rt: &R, expected: Look) -> Told {
        match &self.held {
            Some(held) => is_look(check_now(rt, &self.db, &mut self.one, held), expected),
            None => Err(AllocError),
        }
    }

    /// Whether the question has another cell than its watch exactly where that is said.
    #[tactic(auto, using(watch_set::proofs::ChecksInTurn::all_kept, crate::proofs::StillHeld::one_kept))]
    pub fn has_another<R: Wait>(&mut self, rt: &R, other: bool) -> Told {
        match &self.held {
            Some(held) => is_another(
                watch_now(rt, &self.db, &mut self.one, held.query()),
                held,
                other,
            ),
            None => Err(AllocError),
        }
    }

    /// Makes the set of the watches of two questions.
    #[tactic(auto, using(watch_set::proofs::ChecksInTurn::all_kept, crate::proofs::StillHeld::one_kept))]
    pub fn gather<R: Wait>(&mut self, rt: &R, first: &Asked, second: &Asked) -> Told {
        match both_now(rt, self.alloc, &self.db, &mut self.one, first, second) {
            Ok(set) => {
                self.set = set;
                Ok(true)
            }
            Err(AllocError) => Err(AllocError),
        }
    }

    /// What a look at the set finds.
    #[tactic(auto, using(watch_set::proofs::ChecksInTurn::all_kept, crate::proofs::StillHeld::one_kept))]
    pub fn look<R: Wait>(&mut self, rt: &R) -> Result<Option<Woken>, AllocError> {
        self.set.look_once(rt, &self.db, &mut self.one, None)
    }

    /// What a look at the set finds that the watch cancels.
    #[tactic(auto, using(watch_set::proofs::ChecksInTurn::all_kept, crate::proofs::StillHeld::one_kept))]
    pub fn look_until<R: Wait>(&mut self, rt: &R) -> Result<Option<Woken>, AllocError> {
        match &self.held {
            Some(held) => self.set.look_once(rt, &self.db, &mut self.one, Some(held)),
            None => Err(AllocError),
        }
    }

    /// What ends a wait by the set, if it isn't empty. It is refused once waits have been ended.
    #[tactic(auto, using(watch_set::proofs::ChecksInTurn::all_kept, crate::proofs::StillHeld::one_kept))]
    pub fn wait<R: Wait>(&mut self, rt: &R) -> Result<Option<Woken>, AllocError> {
        if self.set.len() == 0 {
            return Ok(None);
        }
        match self.set.wait(rt, &self.db, &mut self.one, None) {
            Ok(woken) => Ok(Some(woken)),
            Err(_) => Err(AllocError),
        }
    }

    /// Ends the waits of all callers.
    pub fn end_waits(&self) {
        self.db.end_waits();
    }
}

/// Whether a check tells this.
fn is_look(look: Result<Look, AllocError>, expected: Look) -> Told {
    match look {
        Ok(look) => Ok(look == expected),
        Err(_) => Err(AllocError),
    }
}

/// Whether a question has another cell than its watch exactly where that is said.
fn is_another(
    again: Result<(ReadTxn, Answer, Held), AllocError>,
    held: &Held,
    other: bool,
) -> Told {
    match again {
        Ok((_, _, again)) => Ok((again.id() != held.id()) == other),
        Err(_) => Err(AllocError),
    }
}

/// What the first caller reads, a commit of the second, and whether the watch is late then in what was
/// read exactly where it fires.
fn late_behind<R: Wait>(
    rt: &R,
    alloc: Global,
    db: &Db,
    one: Pass,
    two: Pass,
    steps: &'static [Step],
    held: &Held,
    fires: bool,
) -> (Pass, Pass, Told)
    requires one { IsCaller db.now 1 one }
    requires two { IsCaller db.now 2 two }
    requires held { IsHeldBy one held.now }
    ensures one { IsCaller db.now 1 result.0 }
    ensures two { IsCaller db.now 2 result.1 }
    ensures keeps { KeepsHeld one result.0 }
{
    let mut one = one;
    let read = db.read(rt, &mut one);
    held_watches_stay(&one);
    let (two, made) = committed_steps(rt, alloc, db, two, steps);
    match read {
        Ok(read) => {
            let late = read.check(&mut one, held).is_none();
            (one, two, are_both(made, Ok(late == fires)))
        }
        Err(_) => (one, two, Err(AllocError)),
    }
}

/// Whether the front of a new transaction tells that a watch has fired exactly where it fires.
fn begins_told<R: Wait>(rt: &R, db: &Db, pass: Pass, held: &Held, fires: bool) -> (Pass, Told)
    requires own { IsCaller db.now 1 pass }
    requires held { IsHeldBy pass held.now }
    ensures own { IsCaller db.now 1 result.0 }
    ensures keeps { KeepsHeld pass result.0 }
{
    match db.write(rt, pass) {
        Ok(txn) => {
            let txn: Txn = txn;
            let fired = held.watch().moved(&txn.front()).fired;
            let pass = txn.abort(db);
            held_watches_outlast_commits(&pass);
            (pass, Ok(fired == fires))
        }
        Err(BeginRefused { pass, cause: _ }) => {
            held_watches_outlast_commits(&pass);
            (pass, Err(AllocError))
        }
    }
}

/// Whether what callers do with these steps is right.
fn write_so<R: Wait>(
    rt: &R,
    alloc: Global,
    db: &Db,
    one: Pass,
    two: Pass,
    way: Way,
    steps: &'static [Step],
    held: &Option<Held>,
    fires: bool,
) -> (Pass, Pass, Told)
    requires one { IsCaller db.now 1 one }
    requires two { IsCaller db.now 2 two }
    requires held { IfSome held.now (IsHeldBy one) }
    ensures one { IsCaller db.now 1 result.0 }
    ensures two { IsCaller db.now 2 result.1 }
    ensures keeps { KeepsHeld one result.0 }
{
    match way {
        Way::Own => {
            let (one, made) = committed_steps(rt, alloc, db, one, steps);
            held_watches_outlast_commits(&one);
            (one, two, made)
        }
        Way::Other => {
            let (two, made) = committed_steps(rt, alloc, db, two, steps);
            (one, two, made)
        }
        Way::Late => match held {
            Some(held) => late_behind(rt, alloc, db, one, two, steps, held, fires),
            None => (one, two, Err(AllocError)),
        },
        Way::Begin => match held {
            Some(held) => {
                let (one, told) = begins_told(rt, db, one, held, fires);
                (one, two, told)
            }
            None => (one, two, Err(AllocError)),
        },
    }
}

/// The state after all commits, a question's answer there, and its watch. A refusal ends a test.
pub fn watch_now<R: Wait>(
    rt: &R,
    db: &Db,
    pass: &mut Pass,
    query: &Query,
) -> Result<(ReadTxn, Answer, Held), AllocError>
    requires own { IsOf db.now pass.old }
    ensures own { IsCaller db.now pass.old.number pass.new }
    ensures read { IfOk result (λ made. made.0 ≡ reading_of pass.new) }
    ensures heard { IfOk result (λ made. HasHeard pass.new) }
    ensures held { IfOk result (λ made. IsHeldBy pass.new made.2) }
    ensures keeps { KeepsHeld pass.old pass.new }
{
    let read = db.read(rt, pass);
    held_watches_stay(pass);
    asked_watches_are_held(pass);
    let read = read?;
    match watched_of(&read, query) {
        Ok((answer, held)) => Ok((read, answer, held)),
        Err(_) => Err(AllocError),
    }
}

/// The watch of a question that has this answer.
fn held_now<R: Wait>(
    rt: &R,
    alloc: Global,
    db: &Db,
    pass: &mut Pass,
    asked: &Asked,
) -> Result<Held, AllocError>
    requires own { IsCaller db.now 1 pass.old }
    ensures own { IsCaller db.now 1 pass.new }
    ensures held { IfOk result (λ h. IsHeldBy pass.new h) }
    ensures keeps { KeepsHeld pass.old pass.new }
{
    let query = query_of(alloc, &asked.0)?;
    let (_, answer, held) = watch_now(rt, db, pass, &query)?;
    match is_told(alloc, &answer, asked.1) {
        Ok(true) => Ok(held),
        _ => Err(AllocError),
    }
}

/// The set of the watches of two questions.
fn both_now<R: Wait>(
    rt: &R,
    alloc: Global,
    db: &Db,
    pass: &mut Pass,
    first: &Asked,
    second: &Asked,
) -> Result<WatchSet, AllocError>
    requires own { IsCaller db.now 1 pass.old }
    ensures own { IsCaller db.now 1 pass.new }
    ensures held { IfOk result (λ s. AreHeldBy pass.new (watches_of s)) }
    ensures keeps { KeepsHeld pass.old pass.new }
{
    let first = held_now(rt, alloc, db, pass, first)?;
    match held_now(rt, alloc, db, pass, second) {
        Ok(second) => set_of(alloc, &first, &second),
        Err(AllocError) => Err(AllocError),
    }
}

/// What a check of a watch tells.
fn check_now<R: Wait>(rt: &R, db: &Db, pass: &mut Pass, held: &Held) -> Result<Look, AllocError>
    requires own { IsCaller db.now 1 pass.old }
    requires held { IsHeldBy pass.old held.now }
    ensures own { IsCaller db.now 1 pass.new }
    ensures keeps { KeepsHeld pass.old pass.new }
{
    let look = db.check(rt, pass, held);
    held_watches_stay(pass);
    look
}
