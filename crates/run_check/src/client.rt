//! What a client knows between two of its lines.
ghost use Rattle.std.specs.BTreeSet.{insert_key};
ghost use Rattle.std.specs.Cmp.Lexicographic.{slice_cmp};
ghost use Rattle.std.specs.Ordering.{nat_cmp};
ghost use Rattle.std.specs.Prelude.{◌≡◌, ◌<◌, ◌∷◌, ℕ, [], Err, IfErr, IfOk, List, OnErr, OnOk, Some};
ghost use Rattle.std.specs.Prelude.{slice_get};
ghost use Rattle.std.specs.Result.{result_map_both};
ghost use Rattle.mdb_schema.specs.Schema.{DbSchema};
ghost use Rattle.client_script.specs.Client.{at_start, no_write_open, some_open, write_open};
ghost use Rattle.client_script.specs.Turn.{snapshot_called};
ghost use Rattle.client_script.specs.RuleName.{rule_name};
ghost use Rattle.run_check.specs.declared.client.Open.TheVariants as opens;
ghost use Rattle.run_check.specs.inner.ClientView.{IsOpenSight, changed_of, is_closed, known, sight_known};
ghost use Rattle.run_check.specs.inner.StoreView.{Begun};

use crate::keys::joined;
use crate::names::Named;
use crate::sight::{Own, Sight};
use crate::watching::Watching;
use client_script::Rule;
use mdb_datum::Text;
use std::alloc::{AllocError, Global};
use std::collections::BTreeSet;
use std::mem;

/// A write transaction.
#[derive(Drop)]
pub(crate) struct Writing<'a> {
    /// The number of the commit on which it stands.
    pub(crate) number: u64,
    /// Its first writes, which are all so far.
    pub(crate) own: Own,
    /// Its deferred texts, the first first.
    pub(crate) texts: Vec<&'a Text>,
    /// What it has written in tracked tables: the byte of the table's place, and then the `id` key.
    pub(crate) changed: BTreeSet<Vec<u8>>,
}

/// The open transaction, if there is one.
#[derive(Drop)]
pub(crate) enum Open<'a> {
    Nothing,
    /// A read transaction, and the number of the commit on which it stands.
    Reading(u64),
    Writing(Writing<'a>),
}

/// What a client knows.
#[derive(Drop)]
pub(crate) struct Client<'a> {
    /// The greatest commit number that it was told, at first 0.
    pub(crate) last: u64,
    pub(crate) open: Open<'a>,
    pub(crate) snapshots: Named<'a, Sight>,
    pub(crate) watching: Watching<'a>,
}

impl<'a> Writing<'a> {
    /// A transaction on a commit, under a number of its own. It takes no memory.
    pub(crate) fn begin(alloc: Global, number: u64, txn: u32) -> Writing<'a>
        ensures number { result.number ≡ number }
        ensures own { result.own ≡ record { txn = txn; writes = 0 } }
        ensures texts { result.texts.items ≡ [] }
        ensures changed { result.changed.keys ≡ [] }
    {
        Writing {
            number,
            own: Own { txn, writes: 0 },
            texts: Vec::new(alloc),
            changed: BTreeSet::new(alloc),
        }
    }

    /// What it sees.
    pub(crate) fn sight(&self) -> Sight
        ensures { result ≡ record { commits = self.now.number; own = Some self.now.own } }
    {
        Sight {
            commits: self.number,
            own: Some(self.own),
        }
    }
}

impl<'a> Client<'a> {
    /// A client that was told nothing. It takes no memory.
    pub(crate) fn new(alloc: Global) -> Client<'a>
        ensures { (txns : List Begun) → known txns result ≡ at_start }
    {
        Client {
            last: 0,
            open: Open::Nothing,
            snapshots: Named::new(alloc),
            watching: Watching::new(alloc),
        }
    }

    /// What the open transaction sees.
    pub(crate) fn sight(&self) -> Result<Sight, Rule>
        ensures told { (schema : DbSchema) (txns : List Begun)
            → result_map_both (sight_known txns) (rule_name schema) result
            ≡ some_open (known txns self.now).transaction }
        ensures seen { IfOk result (IsOpenSight self.now.«open») }
    {
        match &self.open {
            Open::Nothing => Err(Rule::NoTransaction),
            Open::Reading(number) => Ok(Sight::after(*number)),
            Open::Writing(writing) => Ok(writing.sight()),
        }
    }

    /// What the snapshot of a name sees.
    pub(crate) fn snapshot(&self, name: &Text) -> Result<Sight, Rule>
        ensures told { (schema : DbSchema) (txns : List Begun)
            → result_map_both (sight_known txns) (rule_name schema) result
            ≡ snapshot_called name.now (known txns self.now) }
        ensures kept { IfOk result (λ s. (k : ℕ)
            × (slice_get self.now.snapshots.values.items k ≡ Some s)) }
    {
        match self.snapshots.get(name) {
            Some(sight) => Ok(*sight),
            None => Err(Rule::UnknownName),
        }
    }

    /// Takes out the open write transaction, after which none is open.
    pub(crate) fn take_writing(&mut self) -> Result<Writing<'a>, Rule>
        ensures taken { IfOk result (λ writing. self.old.«open» ≡ opens.Writing writing) }
        ensures closed { IfOk result (λ _. self.new ≡ record self.old { «open» = opens.Nothing }) }
        ensures refused { IfErr result (λ rule. (schema : DbSchema) (txns : List Begun)
            → write_open (known txns self.old).transaction ≡ Err (rule_name schema rule)) }
        ensures kept { OnErr result (self.new ≡ self.old) }
    {
        match mem::replace(&mut self.open, Open::Nothing) {
            Open::Writing(writing) => Ok(writing),
            Open::Nothing => Err(Rule::NoTransaction),
            Open::Reading(number) => {
                self.open = Open::Reading(number);
                Err(Rule::ReadOnly)
            }
        }
    }

    /// Puts a write transaction in the place of what is open.
    pub(crate) fn put_writing(&mut self, writing: Writing<'a>)
        ensures { self.new ≡ record self.old { «open» = opens.Writing writing.entry } }
    {
        self.open = Open::Writing(writing);
    }

    /// Whether no transaction is open.
    pub(crate) fn is_closed(&self) -> bool
        ensures { result ≡ is_closed self.now.«open» }
    {
        matches!(self.open, Open::Nothing)
    }

    /// That no write transaction may be open.
    pub(crate) fn no_writing(&self) -> Result<(), Rule>
        ensures { (schema : DbSchema) (txns : List Begun)
            → result_map_both (λ u. u) (rule_name schema) result
            ≡ no_write_open (known txns self.now).transaction }
    {
        match &self.open {
            Open::Writing(_) => Err(Rule::WriteOpen),
            Open::Nothing | Open::Reading(_) => Ok(()),
        }
    }
}

/// Adds to the changes of a transaction a key in the tracked table at a place.
pub(crate) fn add_changed(
    alloc: Global,
    writing: &mut Writing<'_>,
    table: usize,
    id: &[u8],
) -> Result<(), AllocError>
    requires { table < 256 }
    ensures added { OnOk result (changed_of writing.new
        ≡ insert_key (slice_cmp nat_cmp) (changed_of writing.old) (table ∷ id.now)) }
    ensures kept { writing.new ≡ record writing.old { changed = writing.new.changed } }
{
    let key = joined(alloc, &[table as u8], id)?;
    writing.changed.insert(key)?;
    Ok(())
}
