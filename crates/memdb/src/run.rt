//! The top call.
ghost use Rattle.std.specs.Prelude.{◌≡◌, ◌≢◌, ◌≤◌, ◌⊎◌, ◌∷◌, [], ℕ, None};
ghost use Rattle.mdb_ports.specs.Faults.{Rose};
ghost use Rattle.memdb.specs.Causes.{CallsFor, statuses_for};
ghost use Rattle.memdb.specs.CheckOutcome.{CannotReadOutput, IsBad, IsLegal, OutputTooLarge};
ghost use Rattle.memdb.specs.Outcome.{Done, IsAnswer, Made, Usage};
ghost use Rattle.memdb.specs.Words.{check_named, files_named};
ghost use Rattle.run_io.specs.Ended.{CutShort, Wrote};
ghost use Rattle.run_io.specs.Observed.{observed, Stays};
ghost use Rattle.run_io.specs.Refusals.{BrokenSchema, BrokenScript, CannotRead, TooLarge};
ghost use Rattle.run_io.specs.Statuses.{IsOneOf};

use crate::outcome::outcome;
use mdb_datum::Text;
use mdb_ports::{Failed, Files, Gate, Sink};
use run_io::write_all;
use std::alloc::{AllocError, Global};
use std::sync::Wait;
use std::thread::Threads;

/// Runs the command that the words are, over these files, and writes its text to the sink. It
/// answers the status:
///
/// - 0: the answers were written, which are answers in one history; or, of `make`, the summary; or, of
///   `check`, `legal`, and the output is answers in one history;
/// - 1: the words are no command, and the usage was written;
/// - 2: the schema breaks a rule, and `schema RULE` was written, with the names of the table and
///   the index where the rule has them;
/// - 3: a script breaks a rule, and `script K line L RULE` was written for client K, or
///   `script K RULE` where the rule has no line;
/// - 4: there was not enough memory, and nothing was written;
/// - 5: a file can't be read, and `cannot read NAME` was written;
/// - 6: the sink failed, and the beginning of a text was written;
/// - 7: a file has more than 1,048,576 bytes, or an output that is checked has more than 16,777,216,
///   and `too large NAME` was written;
/// - 10: the output that is checked isn't legal, and `line L` was written for its first bad line.
///
/// Each client is run on a thread of its own. The gate is passed at each line of its script. The
/// call returns once all clients are done: never, where one waits for what nobody does.
pub fn run<R: Threads + Wait + Sync, F: Files, S: Sink, G: Gate + Sync>(
    rt: &R,
    alloc: Global,
    words: &[Text],
    files: &mut F,
    out: &mut S,
    gate: &G,
) -> u8
    // What was written, and why.
    ensures answered { let seen = observed (F.told files.old) (F.reliable files.old)
        (F.faults files.old) (F.faults files.new) in
        result ≡ 0 → Wrote (S.told out.old) (S.told out.new)
        (λ text. Done words.now seen text ⊎ Made words.now text
        ⊎ IsLegal (check_named words.now) seen text) }
    ensures usage { let seen = observed (F.told files.old) (F.reliable files.old)
        (F.faults files.old) (F.faults files.new) in
        result ≡ 1 → Wrote (S.told out.old) (S.told out.new) (Usage words.now seen) }
    ensures broken_schema { let seen = observed (F.told files.old) (F.reliable files.old)
        (F.faults files.old) (F.faults files.new) in
        result ≡ 2 → Wrote (S.told out.old) (S.told out.new)
        (BrokenSchema (files_named words.now) seen) }
    ensures broken_script { let seen = observed (F.told files.old) (F.reliable files.old)
        (F.faults files.old) (F.faults files.new) in
        result ≡ 3 → Wrote (S.told out.old) (S.told out.new)
        (BrokenScript (files_named words.now) seen) }
    ensures out_of_memory { result ≡ 4 → S.told out.new ≡ S.told out.old }
    ensures cannot_read { let seen = observed (F.told files.old) (F.reliable files.old)
        (F.faults files.old) (F.faults files.new) in
        result ≡ 5 → Wrote (S.told out.old) (S.told out.new)
        (λ text. CannotRead (files_named words.now) seen text
        ⊎ CannotReadOutput (check_named words.now) seen text) }
    ensures cut_short { let seen = observed (F.told files.old) (F.reliable files.old)
        (F.faults files.old) (F.faults files.new) in
        result ≡ 6 → Rose (S.faults out.old) (S.faults out.new)
        × Wrote (S.told out.old) (S.told out.new) (CutShort (IsAnswer words.now seen)) }
    ensures too_large { let seen = observed (F.told files.old) (F.reliable files.old)
        (F.faults files.old) (F.faults files.new) in
        result ≡ 7 → Wrote (S.told out.old) (S.told out.new)
        (λ text. TooLarge (files_named words.now) seen text
        ⊎ OutputTooLarge (check_named words.now) seen text) }
    ensures first_bad { let seen = observed (F.told files.old) (F.reliable files.old)
        (F.faults files.old) (F.faults files.new) in
        result ≡ 10 → Wrote (S.told out.old) (S.told out.new)
        (IsBad (check_named words.now) seen) }
    ensures no_other { IsOneOf (0 ∷ 1 ∷ 2 ∷ 3 ∷ 4 ∷ 5 ∷ 6 ∷ 7 ∷ 10 ∷ []) result }

    // Where its cause is there a status comes, but for want of memory and a failed write: of an
    // output that can be checked, 0 or 10.
    ensures comes { let seen = observed (F.told files.old) (F.reliable files.old)
        (F.faults files.old) (F.faults files.new) in
        (status : ℕ) → CallsFor words.now seen status → IsOneOf (statuses_for status) result }

    // What stays. No call of the sink fails, but where the status is 6. Words that are no command
    // touch no file.
    ensures stays { let seen = observed (F.told files.old) (F.reliable files.old)
        (F.faults files.old) (F.faults files.new) in
        Stays seen (F.told files.new) (F.reliable files.new)
        × (files_named words.now ≡ None → files.new ≡ files.old)
        × (S.faults out.old ≤ S.faults out.new)
        × (result ≢ 6 → S.faults out.new ≡ S.faults out.old) }
{
    let output = match outcome(rt, alloc, words, files, gate) {
        Ok(output) => output,
        Err(AllocError) => return 4,
    };
    match write_all(out, &output.text) {
        Ok(()) => output.status,
        Err(Failed) => 6,
    }
}
