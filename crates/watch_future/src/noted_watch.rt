//! What a future keeps of a watch that it noted.
ghost use Rattle.std.specs.Prelude.{◌≡◌};

use futures::task::{Source, Waker};
use watch_word::Watch;

/// A noted watch, with the source at which its task waits and the slot of its waker.
#[derive(Drop)]
pub(crate) struct NotedWatch {
    pub(crate) watch: Watch,
    pub(crate) source: Source,
    pub(crate) slot: Option<Waker>,
}

impl NotedWatch {
    /// A noted watch, with the source and the slot of an earlier one if there is any.
    pub(crate) fn of(watch: Watch, spent: Option<NotedWatch>) -> NotedWatch
        ensures { result.watch ≡ watch }
    {
        let Some(kept) = spent else {
            let source = Source::new();
            return NotedWatch {
                watch,
                source,
                slot: None,
            };
        };
        let NotedWatch {
            watch: old,
            source,
            slot,
        } = kept;
        drop(old);
        NotedWatch {
            watch,
            source,
            slot,
        }
    }
}
