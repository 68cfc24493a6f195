//! What a session waits for.
use mem_txn::Held;
use watch_set::WatchSet;

/// The watches that a session's next line waits for: the members of a set, and the watch that
/// cancels the wait, if there is one.
#[derive(Clone, Copy)]
pub struct WaitsFor<'a> {
    pub set: &'a WatchSet,
    pub until: Option<&'a Held>,
}
