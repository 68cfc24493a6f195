//! Sets of watches: what is added, what each look finds behind a commit, and waits.
ghost use Rattle.mem_txn.specs.Checked.{IsHeldBy};
ghost use Rattle.mem_txn.specs.Database.{Caller};
ghost use Rattle.std.specs.Prelude.{◌≡◌, IfOk};
ghost use Rattle.watch_set.specs.Members.{AreHeldBy, watches_of};

use super::steps::{Asked, Step};
use super::stories::{Case, Part, goes};
use super::{Told, holds};
use mdb_datum::Text;
use mdb_schema::Ask;
use mem_txn::Held;
use std::alloc::{AllocError, Global};
use std::test::Fail;
use watch_set::{WatchSet, Woken};

const ANN: Asked = (
    (Ask::First, "users", "id", r#"["ann"]"#),
    r#"{"age":1,"name":"ann"}"#,
);

const WITH_B: Asked = ((Ask::Get, "users", "id_prefix", r#"["b"]"#), "");

const NOTES: Asked = ((Ask::Get, "notes", "id", "[]"), "");

const INSERT_ANN: &[Step] = &[Step::Insert(("users", r#"{"name":"ann","age":1}"#, "inserted"))];

const INSERT_BOB: &[Step] = &[Step::Insert(("users", r#"{"name":"bob","age":2}"#, "inserted"))];

const INSERT_NOTE: &[Step] = &[Step::Insert(("notes", r#"{"name":"n"}"#, "inserted"))];

const DELETE_BOB: &[Step] = &[Step::Delete((
    "users",
    r#"{"name":"bob"}"#,
    r#"{"age":2,"name":"bob"}"#,
))];

/// Adds two watches, and tells whether each call answers as it should: the first one is added while one
/// member is allowed, and from then on what is there already; then the second is added without a limit.
fn are_added(set: &mut WatchSet, first: &Text, ann: &Held, second: &Text, with_b: &Held) -> Told
    ensures { (p : Caller) → AreHeldBy p (watches_of set.old) → IsHeldBy p ann.now
        → IsHeldBy p with_b.now → AreHeldBy p (watches_of set.new) }
{
    let one = set.add_with_limit(1, first, ann, second, with_b);
    let none = set.add_with_limit(1, second, with_b, first, ann);
    let few = set.len();
    let again = set.add(first, ann);
    let two = set.add(second, with_b);
    match (one, none, again, two) {
        (Ok(one), Ok(none), Ok(again), Ok(two)) => {
            Ok(one && !none && !again && two && few == 1 && set.len() == 2)
        }
        _ => Err(AllocError),
    }
}

/// Adds them under their names.
fn are_named(alloc: Global, set: &mut WatchSet, ann: &Held, with_b: &Held) -> Told
    ensures { (p : Caller) → AreHeldBy p (watches_of set.old) → IsHeldBy p ann.now
        → IsHeldBy p with_b.now → AreHeldBy p (watches_of set.new) }
{
    let first = Text::of(alloc, "a")?;
    let second = Text::of(alloc, "b")?;
    are_added(set, &first, ann, &second, with_b)
}

/// Whether the member at a place has this name.
fn is_named(set: &WatchSet, place: usize, expected: &str) -> bool {
    match set.name(place) {
        Some(name) => name.as_str() == expected,
        None => false,
    }
}

/// A set of two watches. Another one ends the test too.
pub fn set_of(alloc: Global, ann: &Held, with_b: &Held) -> Result<WatchSet, AllocError>
    ensures { IfOk result (λ s. (p : Caller) → IsHeldBy p ann.now → IsHeldBy p with_b.now
        → AreHeldBy p (watches_of s)) }
{
    let mut set = WatchSet::new(alloc);
    let right = are_named(alloc, &mut set, ann, with_b)?;
    if right && is_named(&set, 0, "a") && is_named(&set, 1, "b") && set.name(2).is_none() {
        Ok(set)
    } else {
        Err(AllocError)
    }
}

/// The watch that cancels is of the notes.
static CANCELS: Case = ("sets", &[], NOTES, &[], true);

/// The set of the first user and of those with a `b` in front.
static SETS: [Part; 15] = [
    Part::Commit(INSERT_ANN),
    Part::Hold,
    Part::Gather(ANN, WITH_B),
    Part::Look(None),
    Part::Until(None),
    Part::Commit(INSERT_NOTE),
    Part::Look(None),
    Part::Until(Some(Woken::Stopped { at: 2 })),
    Part::Commit(INSERT_BOB),
    Part::Look(Some(Woken::Fired { place: 1, at: 3 })),
    Part::Wait(Woken::Fired { place: 1, at: 3 }),
    Part::Until(Some(Woken::Fired { place: 1, at: 3 })),
    Part::Commit(DELETE_BOB),
    Part::Gather(ANN, WITH_B),
    Part::End,
];

#[test]
fn a_set_is_woken_by_its_first_member_that_fired(rt: HostRuntime) -> Result<(), Fail> {
    holds(goes(&rt, rt.alloc(), &CANCELS, &SETS))
}
