//! The top call.
ghost use Rattle.std.specs.Prelude.{◌≡◌, ◌≢◌, ◌≤◌, ◌∷◌, [], ℕ, None};
ghost use Rattle.mdb_ports.specs.Faults.{Rose};
ghost use Rattle.session_loop.specs.Causes.{LoopCallsFor, statuses_for};
ghost use Rattle.session_loop.specs.Outcome.{Done, Halted, IsAnswer, Usage};
ghost use Rattle.session_loop.specs.Words.{files_named};
ghost use Rattle.run_io.specs.Ended.{CutShort, Wrote};
ghost use Rattle.run_io.specs.Observed.{observed, Stays};
ghost use Rattle.run_io.specs.Refusals.{BrokenSchema, BrokenScript, CannotRead, TooLarge};
ghost use Rattle.run_io.specs.Statuses.{IsOneOf};

use crate::outcome::outcome;
use mdb_datum::Text;
use mdb_ports::{Failed, Files, Sink};
use run_io::write_all;
use std::alloc::{AllocError, Global};
use std::sync::Wait;
use std::thread::Threads;

/// Carries out the clients that the words name, over these files, on the caller's thread, and writes
/// their text to the sink. Only their files' bytes are read as scripts on other threads. The words
/// are a schema's file and 1 to 63 clients' files. It answers the status:
///
/// - 0: the answers were written, which are answers in one history;
/// - 1: the words are no command, and the usage was written;
/// - 2: the schema breaks a rule, and `schema RULE` was written, with the names of the table and
///   the index where the rule has them;
/// - 3: a script breaks a rule, and `script K line L RULE` was written for client K, or
///   `script K RULE` where the rule has no line;
/// - 4: there was not enough memory, and nothing was written;
/// - 5: a file can't be read, and `cannot read NAME` was written;
/// - 6: the sink failed, and the beginning of a text was written;
/// - 7: a file has more than 1,048,576 bytes, and `too large NAME` was written;
/// - 9: no client can go on, and the answers so far were written, with `stuck K line L` behind them
///   for the first client K that has a line left, which is line L of its file.
///
/// The sessions are polled in turn, in rounds; a poll carries out one line at most. The call may go on
/// for ever, for no clause says that a watch that has fired is told so.
pub fn run_loop<R: Threads + Wait + Sync, F: Files, S: Sink>(
    rt: &R,
    alloc: Global,
    words: &[Text],
    files: &mut F,
    out: &mut S,
) -> u8
    // What was written, and why.
    ensures answered { let seen = observed (F.told files.old) (F.reliable files.old)
        (F.faults files.old) (F.faults files.new) in
        result ≡ 0 → Wrote (S.told out.old) (S.told out.new) (Done words.now seen) }
    ensures stuck { let seen = observed (F.told files.old) (F.reliable files.old)
        (F.faults files.old) (F.faults files.new) in
        result ≡ 9 → Wrote (S.told out.old) (S.told out.new) (Halted words.now seen) }
    ensures usage { let seen = observed (F.told files.old) (F.reliable files.old)
        (F.faults files.old) (F.faults files.new) in
        result ≡ 1 → Wrote (S.told out.old) (S.told out.new) (Usage words.now seen) }
    ensures broken_schema { let seen = observed (F.told files.old) (F.reliable files.old)
        (F.faults files.old) (F.faults files.new) in
        result ≡ 2 → Wrote (S.told out.old) (S.told out.new)
        (BrokenSchema (files_named words.now) seen) }
    ensures broken_script { let seen = observed (F.told files.old) (F.reliable files.old)
        (F.faults files.old) (F.faults files.new) in
        result ≡ 3 → Wrote (S.told out.old) (S.told out.new)
        (BrokenScript (files_named words.now) seen) }
    ensures out_of_memory { result ≡ 4 → S.told out.new ≡ S.told out.old }
    ensures cannot_read { let seen = observed (F.told files.old) (F.reliable files.old)
        (F.faults files.old) (F.faults files.new) in
        result ≡ 5 → Wrote (S.told out.old) (S.told out.new)
        (CannotRead (files_named words.now) seen) }
    ensures cut_short { let seen = observed (F.told files.old) (F.reliable files.old)
        (F.faults files.old) (F.faults files.new) in
        result ≡ 6 → Rose (S.faults out.old) (S.faults out.new)
        × Wrote (S.told out.old) (S.told out.new) (CutShort (IsAnswer words.now seen)) }
    ensures too_large { let seen = observed (F.told files.old) (F.reliable files.old)
        (F.faults files.old) (F.faults files.new) in
        result ≡ 7 → Wrote (S.told out.old) (S.told out.new)
        (TooLarge (files_named words.now) seen) }
    ensures no_other { IsOneOf (0 ∷ 1 ∷ 2 ∷ 3 ∷ 4 ∷ 5 ∷ 6 ∷ 7 ∷ 9 ∷ []) result }

    // Where its cause is there a status comes, but for want of memory and a failed write.
    ensures comes { let seen = observed (F.told files.old) (F.reliable files.old)
        (F.faults files.old) (F.faults files.new) in
        (status : ℕ) → LoopCallsFor words.now seen status → IsOneOf (statuses_for status) result }

    // What stays. No call of the sink fails, but where the status is 6. Words that are no command
    // touch no file.
    ensures stays { let seen = observed (F.told files.old) (F.reliable files.old)
        (F.faults files.old) (F.faults files.new) in
        Stays seen (F.told files.new) (F.reliable files.new)
        × (files_named words.now ≡ None → files.new ≡ files.old)
        × (S.faults out.old ≤ S.faults out.new)
        × (result ≢ 6 → S.faults out.new ≡ S.faults out.old) }
{
    let output = match outcome(rt, alloc, words, files) {
        Ok(output) => output,
        Err(AllocError) => return 4,
    };
    match write_all(out, &output.text) {
        Ok(()) => output.status,
        Err(Failed) => 6,
    }
}
