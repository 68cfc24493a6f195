//! What is shown, and what is ready to be shown.
use std::marker::Model;
use std::sync::Arc;
use watch_word::Front;

/// The value after a list of commits.
#[derive(Drop)]
pub struct Shown<V: Drop> {
    /// An owner of the value. Its count of owners is the caller's own.
    pub value: Arc<V>,
    /// The number of commits that the value stands for.
    pub number: u64,
    /// The number of finished commits: `number`, or one less while the last one isn't finished.
    pub finished: u64,
    /// The log, with every firing of the finished commits.
    pub log: Front,
}

/// A value to be published, with a copy for each caller but one. Contracts see it as the value. It
/// can't be dropped: `publish` takes it.
pub struct Ready<V: Drop> {
    pub(crate) value: Arc<V>,
    pub(crate) copies: Vec<Arc<V>>,
}

impl<V: Drop> Model for Ready<V> {
    ghost use Rattle.std.specs.Arc.{arc_value};

    ghost Value = { V };

    ghost view = { λ r. arc_value r.value };

    ghost use Rattle.db_front.specs.inner.Copies.{AreCopies};

    ghost invariant = { λ r. AreCopies (arc_value r.value) r.copies.items };
}
