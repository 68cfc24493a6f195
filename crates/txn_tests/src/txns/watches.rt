//! Watches: a question's cell before a commit, what the commit of either caller makes of it, what a
//! check then tells, of the state of before too, and the front of a transaction that begins behind it.
ghost use Rattle.std.specs.Prelude.{◌≡◌, IfOk};
ghost use Rattle.mem_txn.specs.Held.{IsHeldOf};

use super::Told;
use super::duo::Way;
use super::steps::{Asked, Step};
use super::stories::{Case, Part, goes};
use mdb_schema::{Answer, Ask, Query};
use mem_txn::{Held, ReadTxn};
use std::alloc::{AllocError, Global};
use std::sync::Wait;
use std::test::Fail;

/// The first caller's own commit; another caller's; and that, behind which the first one begins a
/// transaction.
static WAYS: [&[Part]; 3] = [
    &[
        Part::First,
        Part::Hold,
        Part::Quiet,
        Part::Write(Way::Own),
        Part::Moved,
        Part::Check,
        Part::Other,
    ],
    &[
        Part::First,
        Part::Hold,
        Part::Quiet,
        Part::Write(Way::Late),
        Part::Moved,
        Part::Check,
        Part::Other,
    ],
    &[
        Part::First,
        Part::Hold,
        Part::Quiet,
        Part::Write(Way::Other),
        Part::Write(Way::Begin),
        Part::Check,
        Part::Other,
    ],
];

/// Two users, whom commit 1 stores.
const FIRST: &[Step] = &[
    Step::Insert(("users", r#"{"name":"foo","age":1}"#, "inserted")),
    Step::Insert(("users", r#"{"name":"football","age":2}"#, "inserted")),
];

const FOO: Asked = (
    (Ask::First, "users", "id", r#"["foo"]"#),
    r#"{"age":1,"name":"foo"}"#,
);

const NO_FOO: Asked = ((Ask::First, "users", "id", r#"["foo"]"#), "none");

const NO_FOOL: Asked = ((Ask::First, "users", "id", r#"["fool"]"#), "none");

const NO_FOOT: Asked = ((Ask::First, "users", "id", r#"["foot"]"#), "none");

const BOTH: Asked = (
    (Ask::Get, "users", "id_prefix", r#"["fo"]"#),
    "{\"age\":1,\"name\":\"foo\"}\n{\"age\":2,\"name\":\"football\"}\n",
);

const NO_NOTE: Asked = ((Ask::First, "notes", "id", r#"["n"]"#), "none");

const FOO_ROW: Step = Step::Insert(("users", r#"{"name":"foo","age":1}"#, "inserted"));

const FOOL: Step = Step::Insert(("users", r#"{"name":"fool","age":3}"#, "inserted"));

const FOOT: Step = Step::Insert(("users", r#"{"name":"foot","age":3}"#, "inserted"));

const FOOP: Step = Step::Insert(("users", r#"{"name":"foop","age":3}"#, "inserted"));

const NO_FOOTBALL: Step = Step::Delete((
    "users",
    r#"{"name":"football"}"#,
    r#"{"age":2,"name":"football"}"#,
));

const A_NOTE: Step = Step::Insert(("notes", r#"{"name":"n"}"#, "inserted"));

static CASES: [Case; 14] = [
    (
        "a missing key fires in an empty table",
        &[],
        NO_FOO,
        &[FOO_ROW],
        true,
    ),
    ("a missing key fires", FIRST, NO_FOOL, &[FOOL], true),
    ("a stored one stays", FIRST, FOO, &[FOOL], false),
    ("a split fires the child", FIRST, NO_FOOT, &[FOOT], true),
    ("a stored key above it stays", FIRST, FOO, &[FOOT], false),
    (
        "a merge fires what begins so",
        FIRST,
        BOTH,
        &[NO_FOOTBALL],
        true,
    ),
    (
        "a stored key above it stays",
        FIRST,
        FOO,
        &[NO_FOOTBALL],
        false,
    ),
    (
        "another table fires nothing",
        FIRST,
        NO_FOOL,
        &[A_NOTE],
        false,
    ),
    // The node of the path `foo`, which guards `fool`, is copied; that of `football`, which guards
    // `foot`, stays.
    ("a neighbour fires its node", FIRST, NO_FOOL, &[FOOP], true),
    ("it fires no other", FIRST, NO_FOOT, &[FOOP], false),
    (
        "a commit without writes fires nothing",
        FIRST,
        NO_FOOL,
        &[],
        false,
    ),
    ("each table fires", FIRST, NO_NOTE, &[A_NOTE, FOOL], true),
    ("so does the next", FIRST, NO_FOOL, &[A_NOTE, FOOL], true),
    (
        "the rows stay as they are",
        FIRST,
        FOO,
        &[A_NOTE, FOOL],
        false,
    ),
];

/// The answer to a question and its watch. A refusal ends a test.
pub fn watched_of(read: &ReadTxn, query: &Query) -> Result<(Answer, Held), AllocError>
    ensures held { IfOk result (λ made. IsHeldOf read.now query.now made.1) }
    ensures book { IfOk result (λ made. let h = made.1 in let spot = h.spot in let cell = spot.watch in
        cell.book ≡ read.now.book) }
{
    match read.ask_watch(query) {
        Ok(made) => Ok(made),
        Err(_) => Err(AllocError),
    }
}

/// Whether the watch fires so in each way.
fn always_fires<R: Wait>(rt: &R, alloc: Global, case: &Case) -> Told {
    for parts in &WAYS {
        match goes(rt, alloc, case, parts) {
            Ok(true) => {}
            told => return told,
        }
    }
    Ok(true)
}

#[test]
fn each_way_tells_which_cells_either_caller_fires(rt: HostRuntime) -> Result<(), Fail> {
    for case in &CASES {
        assert!(rt; always_fires(&rt, rt.alloc(), case)?, "{}", case.0);
    }
    Ok(())
}
