//! Stories of two callers: what each does in turn, and what the first one, who holds a watch and a set of
//! watches, is told.
use super::Told;
use super::duo::{Duo, Way};
use super::steps::{Asked, Step};
use mem_txn::Look;
use std::alloc::{AllocError, Global};
use std::sync::Wait;
use watch_set::Woken;

/// What a story is about: what is shown, what the first caller commits before it holds a watch, if
/// anything, the watch's question with its answer then, what a commit writes after that, and whether it
/// fires the watch.
pub type Case = (&'static str, &'static [Step], Asked, &'static [Step], bool);

/// A part of a story.
pub enum Part {
    /// What comes first is committed.
    First,
    /// The first caller asks, and holds the watch.
    Hold,
    /// The watch hasn't fired.
    Quiet,
    /// The commit, or what is told of it.
    Write(Way),
    /// The watch has fired where the commit fires it.
    Moved,
    /// A check tells so.
    Check,
    /// And the question has another cell.
    Other,
    /// The second caller commits these steps.
    Commit(&'static [Step]),
    /// The first one gathers a new set, of the watches of two questions.
    Gather(Asked, Asked),
    /// A look at the set finds this.
    Look(Option<Woken>),
    /// So does one that the watch cancels.
    Until(Option<Woken>),
    /// So does a wait by the set.
    Wait(Woken),
    /// The waits of all are ended, and a wait by the set is refused.
    End,
}

/// What a check tells after the commit.
fn look_of(case: &Case) -> Look {
    let at = if case.1.is_empty() { 1 } else { 2 };
    if case.4 {
        Look::Fired { at }
    } else {
        Look::Quiet { at }
    }
}

/// Whether a look finds this.
fn is_found(found: Result<Option<Woken>, AllocError>, expected: Option<Woken>) -> Told {
    match found {
        Ok(found) => Ok(found == expected),
        Err(_) => Err(AllocError),
    }
}

/// Whether a wait is refused, once waits have been ended.
fn is_refused<R: Wait>(rt: &R, duo: &mut Duo) -> Told {
    duo.end_waits();
    Ok(duo.wait(rt).is_err())
}

/// Whether what is told is right.
fn is_told<R: Wait>(rt: &R, duo: &mut Duo, case: &Case, part: &Part) -> Told {
    match part {
        Part::Hold => duo.hold(rt, &case.2),
        Part::Quiet => Ok(!duo.has_moved()),
        Part::Moved => Ok(duo.has_moved() == case.4),
        Part::Check => duo.checks(rt, look_of(case)),
        Part::Other => duo.has_another(rt, case.4),
        Part::Gather(first, second) => duo.gather(rt, first, second),
        Part::Look(found) => is_found(duo.look(rt), *found),
        Part::Until(found) => is_found(duo.look_until(rt), *found),
        Part::Wait(woken) => is_found(duo.wait(rt), Some(*woken)),
        Part::End => is_refused(rt, duo),
        Part::First | Part::Write(_) | Part::Commit(_) => Ok(false),
    }
}

/// Whether a part is right.
fn is_right<R: Wait>(rt: &R, duo: Duo, case: &Case, part: &Part) -> (Duo, Told) {
    match part {
        Part::First if case.1.is_empty() => (duo, Ok(true)),
        Part::First => duo.write(rt, Way::Own, case.1, false),
        Part::Write(way) => duo.write(rt, *way, case.3, case.4),
        Part::Commit(steps) => duo.write(rt, Way::Other, steps, false),
        part => {
            let mut duo = duo;
            let told = is_told(rt, &mut duo, case, part);
            (duo, told)
        }
    }
}

/// Whether each part is.
fn are_right<R: Wait>(rt: &R, duo: Duo, case: &Case, parts: &[Part]) -> (Duo, Told) {
    let mut duo = duo;
    for part in parts {
        let (next, told) = is_right(rt, duo, case, part);
        duo = next;
        match told {
            Ok(true) => {}
            told => return (duo, told),
        }
    }
    (duo, Ok(true))
}

/// Whether a story in a new database is right.
pub fn goes<R: Wait>(rt: &R, alloc: Global, case: &Case, parts: &[Part]) -> Told {
    let (duo, told) = are_right(rt, Duo::opened(alloc)?, case, parts);
    duo.close(rt);
    told
}
