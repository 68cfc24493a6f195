//! What a client watches.
ghost use Rattle.std.specs.Prelude.{◌≡◌, ◌+◌, ◌-◌, ◌++◌, ◌≤◌, ◌<◌, ◌∷◌, ◌&&◌, [], ℕ, Bool, Decides};
ghost use Rattle.std.specs.Prelude.{IfOk, IsSome, List, None, OnOk, Some, cond, length, nat_eq};
ghost use Rattle.std.specs.Prelude.{slice_get};
ghost use Rattle.mdb_datum.specs.Bytes.{Bytes};
ghost use Rattle.mdb_schema.specs.Guarded.{IsGuarded, IsUnchanged};
ghost use Rattle.mdb_schema.specs.History.{History, IsMadeBy};
ghost use Rattle.mdb_schema.specs.Schema.{DbSchema};
ghost use Rattle.mdb_schema.specs.Watchable.{HasFound, IsTouched, is_for_one};
ghost use Rattle.run_check.specs.inner.GuardView.{IsMeantSame, IsWatchedAt};
ghost use Rattle.run_check.specs.inner.IndexView.{Means};
ghost use Rattle.run_check.specs.inner.StoreView.{Begun};
ghost use Rattle.client_script.specs.Client.{nothing_watched};
ghost use Rattle.run_check.specs.inner.ClientView.{watching_known};
ghost use Rattle.run_check.specs.inner.WatchView.{AtBoth, MayLeave, OneOf, Tied};
ghost use Rattle.run_check.specs.inner.WatchView.{IsAddedTo, IsNewSet, member_count, members_then};
ghost use Rattle.run_check.specs.inner.NamedView.{place_in, value_named};
ghost use Rattle.run_check.specs.declared.watching.Set.{Set};

use crate::index::{Index, Keys};
use crate::lookup::Lookup;
use crate::names::Named;
use crate::same::is_same_query;
use crate::slots::{are_all_same, is_first_same, is_last_same};
use mdb_datum::Text;
use mdb_schema::{Ask, Query};
use std::alloc::{AllocError, Global};

/// What two watches may have in common.
#[derive(Clone, Copy)]
enum Tie {
    /// The question, and the commit after which it was asked.
    Question,
    /// The index where they look.
    Index,
}

/// A watch: its question, and the number of the commit after which that was asked.
#[derive(Drop)]
pub(crate) struct Watch<'a> {
    pub(crate) query: &'a Query,
    pub(crate) number: u64,
    /// Where the question looks.
    pub(crate) at: Lookup,
    /// Whether it looks up one entry, and found it.
    pub(crate) has_found: bool,
}

/// Up to which commit the answer to a quiet watch's question is the same.
fn last_quiet(commits: u64, is_own: bool) -> u64
    ensures { result ≡ cond is_own commits (commits - 1) }
{
    if is_own {
        commits
    } else {
        commits.saturating_sub(1)
    }
}

/// Whether what a question asks for, of the rows under some keys, is the same after each commit from
/// the first number to the second.
fn is_meant_same(index: &Index, ask: Ask, keys: &Keys, first: u64, last: u64) -> bool
    ensures { (meant : Bytes → Bool) → Means keys.now meant
        → Decides result (IsMeantSame ask meant first last index.now) }
{
    match ask {
        Ask::First => is_first_same(index.slots_of(keys), first, last),
        Ask::Last => is_last_same(index.slots_of(keys), first, last),
        _ => are_all_same(index.slots_of(keys), first, last),
    }
}

/// A set of watches, by their places: its members, and all that were ever added to it.
#[derive(Drop)]
pub(crate) struct Set {
    pub(crate) members: Vec<usize>,
    added: Vec<usize>,
}

/// A client's watches, and its sets of them.
#[derive(Drop)]
pub(crate) struct Watching<'a> {
    pub(crate) watches: Named<'a, Watch<'a>>,
    pub(crate) sets: Named<'a, Set>,
}

impl<'a> Watch<'a> {
    /// Whether the question looks up the entry of one very key.
    fn looks_up(&self) -> bool
        ensures { result ≡ (self.now.at.exact && is_for_one self.now.query.now.ask) }
    {
        self.at.exact && matches!(self.query.ask(), Ask::First | Ask::Last)
    }

    /// Whether the answer is the same after each commit from the one after which it was asked to this
    /// one.
    fn is_guarded(&self, alloc: Global, indexes: &[Index], last: u64) -> Result<bool, AllocError>
        requires { self.now.at.index < length indexes.now }
        ensures { (schema : DbSchema) (H : History) (txns : List Begun)
            → IsWatchedAt schema H txns self.now.query.now self.now.at indexes.now
            → last ≤ length H
            → IfOk result (λ is_same. Decides is_same
            (IsGuarded schema H self.now.query.now self.now.number last)) }
    {
        let index = &indexes[self.at.index];
        if self.looks_up() {
            return Ok(index.is_key_unchanged(&self.at.key, self.number, last));
        }
        let keys = Keys::with_prefix(alloc, &self.at.key)?;
        Ok(is_meant_same(index, self.query.ask(), &keys, self.number, last))
    }

    /// Whether the watch may be told to be quiet after so many commits; the last of them may have been
    /// shown before it fired, unless it is the client's own.
    pub(crate) fn is_quiet(
        &self,
        alloc: Global,
        indexes: &[Index],
        commits: u64,
        is_own: bool,
    ) -> Result<bool, AllocError>
        requires { self.now.at.index < length indexes.now }
        ensures { (schema : DbSchema) (H : History) (txns : List Begun) (caller : ℕ)
            → IsWatchedAt schema H txns self.now.query.now self.now.at indexes.now
            → commits ≤ length H → Decides is_own (IsMadeBy H caller commits)
            → IfOk result (λ is_quiet. Decides is_quiet
            (IsUnchanged schema H caller self.now.query.now self.now.number commits)) }
    {
        self.is_guarded(alloc, indexes, last_quiet(commits, is_own))
    }

    /// Whether the watch may be told to have fired after so many commits.
    pub(crate) fn has_fired(&self, indexes: &[Index], commits: u64) -> bool
        requires { self.now.at.index < length indexes.now }
        ensures { (schema : DbSchema) (H : History) (txns : List Begun)
            (w : IsWatchedAt schema H txns self.now.query.now self.now.at indexes.now)
            → Decides self.now.has_found
            (HasFound schema H self.now.query.now self.now.number w.lookup.at)
            → Decides result
            (IsTouched schema H self.now.query.now self.now.number commits) }
    {
        let index = &indexes[self.at.index];
        if self.has_found {
            index.is_key_touched(&self.at.key, self.number, commits)
        } else {
            index.is_touched(self.number, commits)
        }
    }

    /// Whether another watch has this in common with it.
    fn is_tied(&self, tie: Tie, other: &Watch<'_>) -> bool
        ensures { Decides result (Tied tie self.now other.now) }
    {
        match tie {
            Tie::Question => {
                self.number == other.number && is_same_query(self.query, other.query)
            }
            Tie::Index => self.at.table == other.at.table && self.at.index == other.at.index,
        }
    }
}

impl Set {
    /// No watches. It takes no memory.
    pub(crate) fn new(alloc: Global) -> Set
        ensures members { result.members.items ≡ [] }
        ensures added { result.added.items ≡ [] }
    {
        Set {
            members: Vec::new(alloc),
            added: Vec::new(alloc),
        }
    }

    /// Adds the watch at a place, as one that is told to have left the set with this size. False: the
    /// set can't have this size then.
    pub(crate) fn add(
        &mut self,
        watches: &Named<'_, Watch<'_>>,
        place: usize,
        size: u64,
    ) -> Result<bool, AllocError>
        ensures told { IfOk result (λ told.
            Decides told (MayLeave watches.now.values.items self.old place size)) }
        ensures members { OnOk result (self.new.members.items
            ≡ members_then self.old.members.items place size) }
        ensures added { OnOk result (self.new.added.items ≡ self.old.added.items ++ place ∷ []) }
    {
        let told = self.may_leave(watches, place, size);
        if self.grows(size) {
            self.members.push(place)?;
        }
        self.added.push(place)?;
        Ok(told)
    }

    /// Whether this size is that of one member more.
    fn grows(&self, size: u64) -> bool
        ensures { result ≡ nat_eq size (length self.now.members.items + 1) }
    {
        size == self.members.len() as u64 + 1
    }

    /// Whether the watch at a place may be told to have left the set with this size.
    fn may_leave(&self, watches: &Named<'_, Watch<'_>>, place: usize, size: u64) -> bool
        ensures { Decides result (MayLeave watches.now.values.items self.now place size) }
    {
        if self.grows(size) {
            !is_tied_to_one(watches, Tie::Question, &self.added, place)
        } else {
            size == self.members.len() as u64
                && is_tied_to_one(watches, Tie::Index, &self.members, place)
        }
    }
}

/// Whether the watches at two places have this in common.
fn are_tied(watches: &Named<'_, Watch<'_>>, tie: Tie, one: usize, other: usize) -> bool
    ensures { Decides result (AtBoth (Tied tie) watches.now.values.items one other) }
{
    let Some(first) = watches.at(one) else {
        return false;
    };
    let Some(second) = watches.at(other) else {
        return false;
    };
    first.is_tied(tie, second)
}

/// Whether one of the watches at these places has this in common with the one at a place.
fn is_tied_to_one(watches: &Named<'_, Watch<'_>>, tie: Tie, places: &[usize], place: usize) -> bool
    ensures { Decides result (OneOf (Tied tie) watches.now.values.items places.now place) }
{
    for other in places {
        if are_tied(watches, tie, *other, place) {
            return true;
        }
    }
    false
}

impl<'a> Watching<'a> {
    /// Nothing is watched. It takes no memory.
    pub(crate) fn new(alloc: Global) -> Watching<'a>
        ensures { watching_known result ≡ nothing_watched }
    {
        Watching {
            watches: Named::new(alloc),
            sets: Named::new(alloc),
        }
    }

    /// The place of the set of a name, which is made where there is none.
    pub(crate) fn set_place(&mut self, alloc: Global, name: &'a Text) -> Result<usize, AllocError>
        ensures there { IfOk result (λ place. place_in name.now self.new.sets.names ≡ Some place) }
        ensures kept { OnOk result (IsSome (place_in name.now self.old.sets.names)
            → self.new.sets.values.items ≡ self.old.sets.values.items) }
        ensures names { OnOk result (IsSome (place_in name.now self.old.sets.names)
            → self.new.sets.names ≡ self.old.sets.names) }
        ensures made { OnOk result (place_in name.now self.old.sets.names ≡ None
            → IsNewSet name.now self.old.sets.names self.old.sets.values.items
            self.new.sets.names self.new.sets.values.items) }
        ensures watches { self.new.watches ≡ self.old.watches }
    {
        match self.sets.names.place(name) {
            Some(place) => Ok(place),
            None => self.sets.add(alloc, name, Set::new(alloc)),
        }
    }

    /// Adds the watch at a place to the set at a place, as one that is told to have left it with this
    /// size. False: the set can't have this size then.
    pub(crate) fn add(&mut self, set: usize, place: usize, size: u64) -> Result<bool, AllocError>
        requires { set < length self.old.sets.values.items }
        ensures told { IfOk result (λ told. (s : Set) → slice_get self.old.sets.values.items set ≡ Some s
            → Decides told (MayLeave self.old.watches.values.items s place size)) }
        ensures added { OnOk result ((s : Set) → slice_get self.old.sets.values.items set ≡ Some s
            → IsAddedTo s place size self.old.sets.values.items set self.new.sets.values.items) }
        ensures names { self.new.sets.names ≡ self.old.sets.names }
        ensures watches { self.new.watches ≡ self.old.watches }
    {
        let sets = &mut self.sets;
        sets.values[set].add(&self.watches, place, size)
    }

    /// How many members the set of a name has, none where there is no such set.
    pub(crate) fn size(&self, name: &Text) -> usize
        ensures { result ≡ member_count (value_named name.now self.now.sets.names
            self.now.sets.values.items) }
    {
        match self.sets.get(name) {
            Some(set) => set.members.len(),
            None => 0,
        }
    }
}
