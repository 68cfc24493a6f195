//! What calls for each status of [`crate::run::run_loop`], as a law of the definition.
ghost use Rattle.session_loop.specs.Causes.{NoTwoCauses, OneCauseWhereTold};

/// Exactly one cause. Whatever the words and the files are, no two of the statuses 0, 1, 2, 3, 5
/// and 7 are called for, where 9 counts as 0. Where the files tell their bytes, and no read fails but
/// of a file that isn't there, one of them is.
///
/// It does nothing: its contract is the law.
pub fn one_cause()
    ensures no_two { NoTwoCauses }
    ensures one { OneCauseWhereTold }
{}
