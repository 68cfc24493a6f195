//! What is seen of a history.
ghost use Rattle.std.specs.Prelude.{◌≡◌, None};

/// What is seen: the rows after so many commits, and those writes of one transaction that came before
/// one of its writes.
#[derive(Clone, Copy)]
pub(crate) struct Sight {
    pub(crate) commits: u64,
    pub(crate) own: Option<Own>,
}

/// The first writes of a write transaction.
#[derive(Clone, Copy)]
pub(crate) struct Own {
    /// The transaction, by a number of its own in the check.
    pub(crate) txn: u32,
    /// How many of its writes there are.
    pub(crate) writes: u32,
}

/// Where a write belongs: to a commit, or to a transaction that may never be committed.
#[derive(Clone, Copy)]
pub(crate) enum Stamp {
    /// To the commit of this number.
    Commit(u64),
    /// It comes after those writes of a transaction.
    Own(Own),
}

impl Sight {
    /// The rows after so many commits.
    pub(crate) fn after(commits: u64) -> Sight
        ensures { result ≡ record { commits = commits; own = None } }
    {
        Sight { commits, own: None }
    }
}
