//! What looks tell of answers, as a law of the definitions. The function does nothing: its contract
//! is the law.
ghost use Rattle.watch_set.specs.GuardedLooks.{QuietIsGuarded};

/// Watches that were checked one after the other and were quiet have the answers that they were
/// asked with, up to the commit before the one that the pass then had seen as the last.
pub fn quiet_watches_are_guarded()
    ensures { QuietIsGuarded }
{}
