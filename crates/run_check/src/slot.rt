//! The rows that have stood under a full key.
ghost use Rattle.std.specs.Prelude.{◌≡◌, ◌<◌, ◌≤◌, ◌∷◌, ◌++◌, [], Decides, None, OnErr, OnOk};
ghost use Rattle.std.specs.Prelude.{false, is_some, length, option_copied, true};
ghost use Rattle.std.specs.List.{All};
ghost use Rattle.std.specs.List.Sorted.{IsPartitionPoint};
ghost use Rattle.run_check.specs.inner.SlotView.{IsLatest, IsSame, IsWrittenIn};
ghost use Rattle.run_check.specs.inner.SlotView.{is_earlier, latest, no_versions, own_version_of};
ghost use Rattle.run_check.specs.inner.SlotView.{put_version, row_after, row_seen, with_version};

use crate::sight::{Own, Sight, Stamp};
use mdb_datum::Row;
use std::alloc::{AllocError, Global};
use std::marker::Model;

/// A row under a key after a commit, or that there is none.
#[derive(Drop)]
struct Version {
    commit: u64,
    row: Option<Row>,
}

/// The same after a write of a transaction that may not be committed.
#[derive(Drop)]
struct OwnVersion {
    txn: u32,
    /// How many writes of the transaction came before.
    write: u32,
    row: Option<Row>,
}

/// What has stood under a full key: a version for each commit that wrote the key, in order, and one
/// for each write of it in other transactions, in order.
#[derive(Drop)]
pub(crate) struct Slot {
    commits: Vec<Version>,
    own: Vec<OwnVersion>,
}

impl Model for Slot {
    ghost use Rattle.run_check.specs.inner.SlotView.{AreRising, Versions, versions_code};

    ghost Value = { Versions };

    ghost coded = { versions_code };

    ghost view = { λ s. record { commits = s.commits.items; own = s.own.items } };

    ghost invariant = { λ s. AreRising s.commits.items s.own.items };
}

impl Slot {
    /// Nothing has stood here. It takes no memory.
    pub(crate) fn new(alloc: Global) -> Slot
        ensures { result ≡ no_versions }
    {
        Slot {
            commits: Vec::new(alloc),
            own: Vec::new(alloc),
        }
    }

    /// Writes a row, or that there is none. Writes come in the order of commits, and of transactions.
    pub(crate) fn put(&mut self, stamp: Stamp, row: Option<Row>) -> Result<(), AllocError>
        requires { IsLatest stamp self.old }
        ensures { OnOk result (self.new ≡ put_version stamp row self.old) }
    {
        match stamp {
            Stamp::Commit(commit) => add_version(&mut self.commits, commit, row),
            Stamp::Own(own) => add_own(&mut self.own, own, row),
        }
    }

    /// The row that is seen.
    pub(crate) fn row(&self, sight: Sight) -> Option<&Row>
        ensures { option_copied result ≡ row_seen sight self.now }
    {
        if let Some(own) = sight.own {
            if let Some(version) = self.own_version(own) {
                return version.row.as_ref();
            }
        }
        self.row_after(sight.commits)
    }

    /// The last version among some writes of a transaction.
    fn own_version(&self, own: Own) -> Option<&OwnVersion>
        ensures { option_copied result ≡ latest own None self.now.own }
    {
        let count = self.count_before(own);
        let version = self.own.get(count.checked_sub(1)?)?;
        if version.txn == own.txn {
            Some(version)
        } else {
            None
        }
    }

    /// How many writes come before the end of some.
    fn count_before(&self, own: Own) -> usize
        ensures bound { result ≤ length self.now.own }
        ensures parted { IsPartitionPoint (λ v. is_earlier v.txn v.write own ≡ true)
            (λ v. is_earlier v.txn v.write own ≡ false) self.now.own result }
    {
        self.own
            .partition_point(|version| is_before(version.txn, version.write, own))
    }

    /// How many versions there are after so many commits.
    fn count_after(&self, commits: u64) -> usize
        ensures bound { result ≤ length self.now.commits }
        ensures parted { IsPartitionPoint (λ v. v.commit ≤ commits) (λ v. commits < v.commit)
            self.now.commits result }
    {
        self.commits
            .partition_point(|version| version.commit <= commits)
    }

    /// The row after so many commits.
    fn row_after(&self, commits: u64) -> Option<&Row>
        ensures { option_copied result ≡ row_after commits None self.now.commits }
    {
        let count = self.count_after(commits);
        self.commits.get(count.checked_sub(1)?)?.row.as_ref()
    }

    /// Whether there is a row after so many commits.
    pub(crate) fn has_row_after(&self, commits: u64) -> bool
        ensures { result ≡ is_some (row_after commits None self.now.commits) }
    {
        self.row_after(commits).is_some()
    }

    /// Whether one of the commits behind the first number, up to the second, wrote the key.
    pub(crate) fn is_touched(&self, after: u64, last: u64) -> bool
        ensures { Decides result (IsWrittenIn after last self.now) }
    {
        self.count_after(after) < self.count_after(last)
    }

    /// Whether the row is the same after each commit from the first number to the second.
    pub(crate) fn is_unchanged(&self, first: u64, last: u64) -> bool
        ensures { Decides result (IsSame first last self.now) }
    {
        let from = self.count_after(first);
        let to = self.count_after(last).max(from);
        all_have(&self.commits[from..to], self.row_after(first))
    }
}

/// Adds a version, in the place of an earlier one of the same commit.
fn add_version(versions: &mut Vec<Version>, commit: u64, row: Option<Row>) -> Result<(), AllocError>
    ensures added { OnOk result (versions.new.items ≡ with_version commit row versions.old.items) }
    ensures unchanged { OnErr result (versions.new.items ≡ versions.old.items) }
{
    if let Some(last) = versions.last_mut() {
        if last.commit == commit {
            last.row = row;
            return Ok(());
        }
    }
    versions.push(Version { commit, row })?;
    Ok(())
}

/// Adds the version of a transaction's write.
fn add_own(versions: &mut Vec<OwnVersion>, own: Own, row: Option<Row>) -> Result<(), AllocError>
    ensures added { OnOk result
        (versions.new.items ≡ versions.old.items ++ own_version_of own row ∷ []) }
    ensures unchanged { OnErr result (versions.new.items ≡ versions.old.items) }
{
    versions.push(OwnVersion {
        txn: own.txn,
        write: own.writes,
        row,
    })?;
    Ok(())
}

/// Whether a write comes before the end of some writes, in the order of transactions.
fn is_before(txn: u32, write: u32, own: Own) -> bool
    ensures { result ≡ is_earlier txn write own }
{
    txn < own.txn || (txn == own.txn && write < own.writes)
}

/// Whether each of some versions has this row.
fn all_have(versions: &[Version], row: Option<&Row>) -> bool
    ensures { Decides result (All (λ v. v.row ≡ option_copied row.entry) versions.now) }
{
    versions
        .iter()
        .all(|version| is_same(version.row.as_ref(), row))
}

/// Whether two rows have the same members, or neither is there.
fn is_same(one: Option<&Row>, other: Option<&Row>) -> bool
    ensures { Decides result (option_copied one.entry ≡ option_copied other.entry) }
{
    match (one, other) {
        (None, None) => true,
        (Some(one), Some(other)) => one.has_same_members(other),
        _ => false,
    }
}
