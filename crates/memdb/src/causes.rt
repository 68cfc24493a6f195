//! What holds of the answers of [`crate::run::run`], as laws of their definitions. The functions do
//! nothing: their contracts are the laws.
ghost use Rattle.memdb.specs.Causes.{NoTwoCauses, OneCauseWhereTold};
ghost use Rattle.memdb.specs.RunsPass.{RunsPass};

/// Exactly one cause. Whatever the words and the files are, no two of the statuses 0, 1, 2, 3, 5, 7
/// and 10 are called for, where 10 is that of an output which can be checked. Where the files tell
/// their bytes, and no read fails but of a file that isn't there, one of them is.
pub fn one_cause()
    ensures no_two { NoTwoCauses }
    ensures one { OneCauseWhereTold }
{}

/// No output with which `run` ended with 0 is refused by `check`, nor one with which the loop of sessions
/// on one thread did.
pub fn runs_pass()
    ensures { RunsPass }
{}
