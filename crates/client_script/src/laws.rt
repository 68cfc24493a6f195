//! What a commit tells, as laws of the definitions. The function does nothing: its contract is the law.
ghost use Rattle.client_script.specs.Laws.{ChangesLeadToNextState, CommitTellsItsChanges};

/// A commit tells the changes from the state before it to the state after it, in the history of which
/// it is an entry.
pub fn commits_tell_their_changes()
    ensures states { ChangesLeadToNextState }
    ensures reply { CommitTellsItsChanges }
{}
