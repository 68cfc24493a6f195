//! Worked examples: transactions on a database, each write and question with its answer, and what
//! each commit gives and leaves.
ghost use Rattle.std.specs.Prelude.{◌≡◌};
ghost use Rattle.mem_txn.specs.Transactions.{txn_of};

use super::steps::{Asked, Kept, Step, are_done, is_kept, is_read, is_walked};
use super::tracked::{TRACKED, are_changes};
use super::{Rounds, SCHEMA, Told, Txn, Work, are_both, plays};
use mdb_schema::Ask;
use mem_txn::{DeferredList, ReadTxn, Receipt};
use std::alloc::{AllocError, Global};
use std::sync::Wait;
use std::test::Fail;
use watch_word::Front;

/// A transaction: its steps, whether they are committed, the items that the commit hands out, in the
/// order in which they were deferred, the rows before and after of each change that it tells of the first
/// table, the number of the last commit then, and questions of what is read.
struct Turn {
    steps: &'static [Step],
    commits: bool,
    items: &'static [&'static str],
    changes: &'static [(&'static str, &'static str)],
    number: u64,
    questions: &'static [Asked],
}

/// Transactions that are played, the place of the next one, and the last snapshot in them.
#[derive(Drop)]
struct Script {
    turns: &'static [Turn],
    at: usize,
    kept: Kept,
}

impl Script {
    /// The transaction that is played. That there is none counts as want of memory.
    fn turn(&self) -> Result<&'static Turn, AllocError> {
        match self.turns.get(self.at) {
            Some(turn) => Ok(turn),
            None => Err(AllocError),
        }
    }
}

impl Work for Script {
    /// Takes the steps. A wrong answer counts as want of memory.
    fn run(&mut self, alloc: Global, txn: &mut Txn) -> Told {
        let turn = self.turn()?;
        match are_done(alloc, txn, turn.steps, &mut self.kept) {
            Ok(true) => Ok(turn.commits),
            _ => Err(AllocError),
        }
    }
}

impl Rounds for Script {
    /// Whether a commit gives what it should, or an abort nothing.
    fn is_ended(&mut self, _alloc: Global, receipt: Option<Receipt<String>>) -> Told {
        let turn = self.turn()?;
        match receipt {
            Some(receipt) => is_received(receipt, turn),
            None => Ok(!turn.commits),
        }
    }

    /// Whether the snapshot and what is read answer so.
    fn is_left(&mut self, alloc: Global, read: &ReadTxn, _log: &Front) -> Told {
        let turn = self.turn()?;
        self.at = self.at.saturating_add(1);
        match is_still(alloc, &self.kept) {
            Ok(true) => are_read(alloc, read, turn.number, turn.questions),
            told => told,
        }
    }
}

/// Whether a snapshot that is kept answers so.
fn is_still(alloc: Global, kept: &Kept) -> Told {
    match kept {
        Some((snapshot, asked)) => is_kept(alloc, snapshot, &asked.0, asked.1),
        None => Ok(true),
    }
}

/// Whether an item is there, and is this one.
fn is_item(item: Option<&String>, expected: &str) -> bool {
    match item {
        Some(item) => item.as_str() == expected,
        None => false,
    }
}

/// Whether these items are found by their places, last first.
fn are_placed(items: &DeferredList<String>, expected: &[&str]) -> bool {
    for (at, item) in expected.iter().rev().enumerate() {
        if !is_item(items.get(at), item) {
            return false;
        }
    }
    items.get(expected.len()).is_none() && items.len() == expected.len()
}

/// Takes an item out, and tells whether it is this one.
fn is_taken(items: &mut DeferredList<String>, expected: &str) -> bool {
    is_item(items.take().as_ref(), expected)
}

/// Takes the items out, and tells whether they are these, last first.
fn are_taken(items: &mut DeferredList<String>, expected: &[&str]) -> bool {
    for item in expected.iter().rev() {
        if !is_taken(items, item) {
            return false;
        }
    }
    items.take().is_none() && items.len() == 0
}

/// Whether a commit gives what it should.
fn is_received(receipt: Receipt<String>, turn: &Turn) -> Told {
    let mut items = receipt.items;
    let right = turn.commits
        && receipt.number == turn.number
        && are_placed(&items, turn.items)
        && are_taken(&mut items, turn.items);
    are_both(are_changes(&receipt.changes, turn.changes), Ok(right))
}

/// Whether a read transaction answers a question so, at once and one row at a time.
fn is_told_twice(alloc: Global, read: &ReadTxn, asked: &Asked) -> Told {
    are_both(
        is_read(alloc, read, &asked.0, asked.1),
        is_walked(alloc, read, &asked.0, asked.1),
    )
}

/// Whether a read transaction on this commit answers each question so.
fn are_read(alloc: Global, read: &ReadTxn, number: u64, questions: &[Asked]) -> Told {
    for asked in questions {
        match is_told_twice(alloc, read, asked) {
            Ok(true) => {}
            told => return told,
        }
    }
    Ok(read.number() == number)
}

const NO_USERS: Asked = ((Ask::Get, "users", "id", "[]"), "");

const NO_MAILS: Asked = ((Ask::Get, "users", "mail", "[]"), "");

const ANN: Asked = (
    (Ask::Get, "users", "id", "[]"),
    "{\"age\":3,\"name\":\"ann\"}\n",
);

const THREE: Asked = (
    (Ask::Get, "users", "id", "[]"),
    "{\"age\":4,\"name\":\"ann\"}\n{\"age\":2,\"name\":\"bob\"}\n{\"age\":1,\"name\":\"cy\"}\n",
);

const MAILS: Asked = (
    (Ask::Get, "users", "mail", "[]"),
    "{\"age\":1,\"mail\":\"m\",\"name\":\"ann\"}\n",
);

const ONES: Asked = (
    (Ask::Get, "users", "age", "[1]"),
    "{\"age\":1,\"name\":\"ann\"}\n{\"age\":1,\"name\":\"anna\"}\n{\"age\":1,\"name\":\"bob\"}\n",
);

const BOB: Asked = (
    (Ask::Get, "users", "age", "[1]"),
    "{\"age\":1,\"name\":\"bob\"}\n",
);

/// Rows are put, replaced and asked for.
static PUTS: [Turn; 2] = [
    Turn {
        steps: &[
            Step::Insert(("users", r#"{"name":"ann","age":3}"#, "inserted")),
            Step::Keep(ANN),
        ],
        commits: true,
        items: &[],
        changes: &[],
        number: 1,
        questions: &[ANN],
    },
    Turn {
        steps: &[
            Step::Insert(("users", r#"{"name":"ann","age":4}"#, "replaced")),
            Step::Insert(("users", r#"{"name":"cy","age":1}"#, "inserted")),
            Step::Insert(("users", r#"{"name":"bob","age":2}"#, "inserted")),
            Step::Tell((
                (Ask::First, "users", "id", r#"["ann"]"#),
                r#"{"age":4,"name":"ann"}"#,
            )),
            Step::Tell(THREE),
            Step::Keep(THREE),
        ],
        commits: true,
        items: &[],
        changes: &[],
        number: 2,
        questions: &[
            ((Ask::Get, "users", "age", "[3]"), ""),
            (
                (Ask::Get, "users", "age", "[4]"),
                "{\"age\":4,\"name\":\"ann\"}\n",
            ),
            ((Ask::Last, "users", "id", "[]"), r#"{"age":1,"name":"cy"}"#),
        ],
    },
];

/// A key that is taken refuses a row, and a row is taken out once.
static MAILED: [Turn; 2] = [
    Turn {
        steps: &[
            Step::Insert(("users", r#"{"name":"ann","age":1,"mail":"m"}"#, "inserted")),
            Step::Insert((
                "users",
                r#"{"name":"bob","age":2,"mail":"m"}"#,
                "key-taken mail",
            )),
            Step::Insert(("users", r#"{"name":"bob","age":2}"#, "inserted")),
            Step::Tell(MAILS),
            Step::Keep(MAILS),
        ],
        commits: true,
        items: &[],
        changes: &[],
        number: 1,
        questions: &[MAILS],
    },
    Turn {
        steps: &[
            Step::Delete(("users", r#"{"name":"bob"}"#, r#"{"age":2,"name":"bob"}"#)),
            Step::Delete(("users", r#"{"name":"bob"}"#, "not-found")),
            Step::Keep(MAILS),
        ],
        commits: true,
        items: &[],
        changes: &[],
        number: 2,
        questions: &[MAILS, ((Ask::Get, "users", "age", "[2]"), "")],
    },
];

/// Writes and questions that are refused.
static REFUSED: [Turn; 2] = [
    Turn {
        steps: &[Step::Keep(NO_USERS)],
        commits: true,
        items: &[],
        changes: &[],
        number: 1,
        questions: &[NO_USERS],
    },
    Turn {
        steps: &[
            Step::Insert(("user", r#"{"name":"a","age":1}"#, "unknown-table")),
            Step::Delete(("user", r#"{"name":"a","age":1}"#, "unknown-table")),
            Step::Insert(("users", r#"{"age":1}"#, "no-id")),
            Step::Insert(("users", r#"{"name":5,"age":1}"#, "wrong-kind id")),
            Step::Insert(("users", r#"{"name":"a"}"#, "missing age")),
            Step::Insert(("users", r#"{"name":"a","age":70000}"#, "out-of-range age")),
            Step::Insert((
                "users",
                r#"{"name":"a","age":1,"tags":"x"}"#,
                "wrong-kind tags",
            )),
            Step::Insert(("users", r#"{"name":"","age":1}"#, "no-id")),
            Step::Tell(NO_USERS),
            Step::Keep(NO_USERS),
        ],
        commits: true,
        items: &[],
        changes: &[],
        number: 2,
        questions: &[
            ((Ask::Get, "user", "id", "[]"), "unknown-table"),
            ((Ask::Get, "users", "ids", "[]"), "unknown-index"),
            ((Ask::Get, "users", "age_prefix", "[1]"), "no-prefix-form"),
            ((Ask::Get, "users", "age", r#"["1"]"#), "arg-kind"),
            ((Ask::Get, "users", "age", "[1,2]"), "arg-count"),
            ((Ask::Longest, "users", "id", r#"["a"]"#), "no-prefix-name"),
            (
                (Ask::Longest, "users", "tags_prefix", r#"["a"]"#),
                "not-unique",
            ),
        ],
    },
];

/// An abort undoes a wipe.
static WIPED: [Turn; 2] = [
    Turn {
        steps: &[
            Step::Insert(("users", r#"{"name":"ann","age":1}"#, "inserted")),
            Step::Insert(("users", r#"{"name":"bob","age":1}"#, "inserted")),
            Step::Insert(("users", r#"{"name":"anna","age":1}"#, "inserted")),
            Step::Tell(ONES),
            Step::Keep(ONES),
        ],
        commits: true,
        items: &[],
        changes: &[],
        number: 1,
        questions: &[ONES],
    },
    Turn {
        steps: &[
            Step::Wipe((Ask::Get, "users", "id_prefix", r#"["an"]"#), 2),
            Step::Tell(BOB),
            Step::Keep(BOB),
        ],
        commits: false,
        items: &[],
        changes: &[],
        number: 1,
        questions: &[ONES],
    },
];

/// A snapshot between two writes outlives their abort.
static ABORTED: [Turn; 1] = [Turn {
    steps: &[
        Step::Insert(("users", r#"{"name":"ann","age":3}"#, "inserted")),
        Step::Keep(ANN),
        Step::Delete(("users", r#"{"name":"ann"}"#, r#"{"age":3,"name":"ann"}"#)),
        Step::Tell(NO_USERS),
    ],
    commits: false,
    items: &[],
    changes: &[],
    number: 0,
    questions: &[NO_USERS],
}];

/// The last item deferred comes first.
static DEFERRED: [Turn; 1] = [Turn {
    steps: &[
        Step::Defer("unlock"),
        Step::Defer(""),
        Step::Defer("notify ann"),
        Step::Defer("notify bob"),
        Step::Keep(NO_USERS),
    ],
    commits: true,
    items: &["unlock", "", "notify ann", "notify bob"],
    changes: &[],
    number: 1,
    questions: &[NO_USERS],
}];

/// Rows come in the order of their keys and against it, by prefixes and by bounds that are compared
/// with whole keys: those of `x` and `y` are `00 ff 78 00` and `01 00 79 00`.
static BOUNDED: [Turn; 1] = [Turn {
    steps: &[
        Step::Insert(("users", r#"{"name":"y","age":256}"#, "inserted")),
        Step::Insert(("users", r#"{"name":"xa","age":7}"#, "inserted")),
        Step::Insert(("users", r#"{"name":"x","age":255}"#, "inserted")),
        Step::Keep(NO_MAILS),
    ],
    commits: true,
    items: &[],
    changes: &[],
    number: 1,
    questions: &[
        (
            (Ask::Get, "users", "id", "[]"),
            "{\"age\":255,\"name\":\"x\"}\n{\"age\":7,\"name\":\"xa\"}\n{\"age\":256,\"name\":\"y\"}\n",
        ),
        (
            (Ask::Get, "users", "id", r#"["x"]"#),
            "{\"age\":255,\"name\":\"x\"}\n",
        ),
        (
            (Ask::GetReverse, "users", "id_prefix", r#"["x"]"#),
            "{\"age\":7,\"name\":\"xa\"}\n{\"age\":255,\"name\":\"x\"}\n",
        ),
        ((Ask::First, "users", "id", r#"["z"]"#), "none"),
        (
            (Ask::Lower, "users", "age", "[256]"),
            "{\"age\":256,\"name\":\"y\"}\n",
        ),
        ((Ask::Lower, "users", "age", "[65536]"), "out-of-range"),
        (
            (Ask::ReverseLower, "users", "age", "[256]"),
            "{\"age\":255,\"name\":\"x\"}\n{\"age\":7,\"name\":\"xa\"}\n",
        ),
        ((Ask::ReverseLower, "users", "age", "[]"), "arg-count"),
        ((Ask::Longest, "users", "id_prefix", r#"["xab"]"#), "none"),
    ],
}];

/// Rows come, are replaced by others and by equal ones, come and go at once, and go.
static TURNED: [Turn; 3] = [
    Turn {
        steps: &[
            Step::Insert(("t", r#"{"name":"b","n":1}"#, "inserted")),
            Step::Insert(("t", r#"{"name":"a"}"#, "inserted")),
            Step::Insert(("u", r#"{"name":"z"}"#, "inserted")),
        ],
        commits: true,
        items: &[],
        changes: &[
            ("none", r#"{"name":"a"}"#),
            ("none", r#"{"n":1,"name":"b"}"#),
        ],
        number: 1,
        questions: &[],
    },
    Turn {
        steps: &[
            Step::Insert(("t", r#"{"name":"b","n":2}"#, "replaced")),
            Step::Insert(("t", r#"{"name":"c"}"#, "inserted")),
            Step::Delete(("t", r#"{"name":"c"}"#, r#"{"name":"c"}"#)),
            Step::Insert(("t", r#"{"name":"a"}"#, "replaced")),
        ],
        commits: true,
        items: &[],
        changes: &[(r#"{"n":1,"name":"b"}"#, r#"{"n":2,"name":"b"}"#)],
        number: 2,
        questions: &[],
    },
    Turn {
        steps: &[Step::Delete(("t", r#"{"name":"a"}"#, r#"{"name":"a"}"#))],
        commits: true,
        items: &[],
        changes: &[(r#"{"name":"a"}"#, "none")],
        number: 3,
        questions: &[],
    },
];

/// Each way in which a row can come and go within one commit, one after the other.
static WAYS: [Turn; 16] = [
    // nothing is done
    Turn {
        steps: &[],
        commits: true,
        items: &[],
        changes: &[],
        number: 1,
        questions: &[],
    },
    // insert, then delete
    Turn {
        steps: &[
            Step::Insert(("t", r#"{"name":"a"}"#, "inserted")),
            Step::Delete(("t", r#"{"name":"a"}"#, r#"{"name":"a"}"#)),
        ],
        commits: true,
        items: &[],
        changes: &[],
        number: 2,
        questions: &[],
    },
    // insert, delete, insert
    Turn {
        steps: &[
            Step::Insert(("t", r#"{"name":"a"}"#, "inserted")),
            Step::Delete(("t", r#"{"name":"a"}"#, r#"{"name":"a"}"#)),
            Step::Insert(("t", r#"{"name":"a","n":1}"#, "inserted")),
        ],
        commits: true,
        items: &[],
        changes: &[("none", r#"{"n":1,"name":"a"}"#)],
        number: 3,
        questions: &[],
    },
    // delete, then insert the same
    Turn {
        steps: &[
            Step::Delete(("t", r#"{"name":"a"}"#, r#"{"n":1,"name":"a"}"#)),
            Step::Insert(("t", r#"{"n":1,"name":"a"}"#, "inserted")),
        ],
        commits: true,
        items: &[],
        changes: &[],
        number: 4,
        questions: &[],
    },
    // delete, then insert another of the same key
    Turn {
        steps: &[
            Step::Delete(("t", r#"{"name":"a"}"#, r#"{"n":1,"name":"a"}"#)),
            Step::Insert(("t", r#"{"n":2,"name":"a"}"#, "inserted")),
        ],
        commits: true,
        items: &[],
        changes: &[(r#"{"n":1,"name":"a"}"#, r#"{"n":2,"name":"a"}"#)],
        number: 5,
        questions: &[],
    },
    // put twice
    Turn {
        steps: &[
            Step::Insert(("t", r#"{"n":3,"name":"a"}"#, "replaced")),
            Step::Insert(("t", r#"{"n":4,"name":"a"}"#, "replaced")),
        ],
        commits: true,
        items: &[],
        changes: &[(r#"{"n":2,"name":"a"}"#, r#"{"n":4,"name":"a"}"#)],
        number: 6,
        questions: &[],
    },
    // put another, then the old one
    Turn {
        steps: &[
            Step::Insert(("t", r#"{"n":5,"name":"a"}"#, "replaced")),
            Step::Insert(("t", r#"{"n":4,"name":"a"}"#, "replaced")),
        ],
        commits: true,
        items: &[],
        changes: &[],
        number: 7,
        questions: &[],
    },
    // put the same members in another order
    Turn {
        steps: &[Step::Insert(("t", r#"{"name":"a","n":4}"#, "replaced"))],
        commits: true,
        items: &[],
        changes: &[],
        number: 8,
        questions: &[],
    },
    // put, then delete a row that was there
    Turn {
        steps: &[
            Step::Insert(("t", r#"{"n":6,"name":"a"}"#, "replaced")),
            Step::Delete(("t", r#"{"name":"a"}"#, r#"{"n":6,"name":"a"}"#)),
        ],
        commits: true,
        items: &[],
        changes: &[(r#"{"n":4,"name":"a"}"#, "none")],
        number: 9,
        questions: &[],
    },
    // put two anew, twice
    Turn {
        steps: &[
            Step::Insert(("t", r#"{"name":"b"}"#, "inserted")),
            Step::Insert(("t", r#"{"name":"a"}"#, "inserted")),
            Step::Insert(("t", r#"{"n":1,"name":"b"}"#, "replaced")),
            Step::Insert(("t", r#"{"n":1,"name":"a"}"#, "replaced")),
        ],
        commits: true,
        items: &[],
        changes: &[
            ("none", r#"{"n":1,"name":"a"}"#),
            ("none", r#"{"n":1,"name":"b"}"#),
        ],
        number: 10,
        questions: &[],
    },
    // wipe, then insert one of them again
    Turn {
        steps: &[
            Step::Wipe((Ask::Get, "t", "id", "[]"), 2),
            Step::Insert(("t", r#"{"n":1,"name":"b"}"#, "inserted")),
        ],
        commits: true,
        items: &[],
        changes: &[(r#"{"n":1,"name":"a"}"#, "none")],
        number: 11,
        questions: &[],
    },
    // wipe, then insert others of the same keys
    Turn {
        steps: &[
            Step::Wipe((Ask::Get, "t", "id", "[]"), 1),
            Step::Insert(("t", r#"{"n":2,"name":"b"}"#, "inserted")),
            Step::Insert(("t", r#"{"name":"ab"}"#, "inserted")),
        ],
        commits: true,
        items: &[],
        changes: &[
            ("none", r#"{"name":"ab"}"#),
            (r#"{"n":1,"name":"b"}"#, r#"{"n":2,"name":"b"}"#),
        ],
        number: 12,
        questions: &[],
    },
    // insert, then wipe by a prefix of the name
    Turn {
        steps: &[
            Step::Insert(("t", r#"{"name":"a"}"#, "inserted")),
            Step::Wipe((Ask::Get, "t", "id_prefix", r#"["a"]"#), 2),
        ],
        commits: true,
        items: &[],
        changes: &[(r#"{"name":"ab"}"#, "none")],
        number: 13,
        questions: &[],
    },
    // only the other table
    Turn {
        steps: &[
            Step::Insert(("u", r#"{"name":"b"}"#, "inserted")),
            Step::Delete(("t", r#"{"name":"x"}"#, "not-found")),
        ],
        commits: true,
        items: &[],
        changes: &[],
        number: 14,
        questions: &[],
    },
    // both tables
    Turn {
        steps: &[
            Step::Wipe((Ask::Get, "u", "id", "[]"), 1),
            Step::Insert(("u", r#"{"name":"c"}"#, "inserted")),
            Step::Insert(("t", r#"{"name":"c"}"#, "inserted")),
        ],
        commits: true,
        items: &[],
        changes: &[("none", r#"{"name":"c"}"#)],
        number: 15,
        questions: &[],
    },
    // all goes
    Turn {
        steps: &[
            Step::Wipe((Ask::Get, "t", "id", "[]"), 2),
            Step::Wipe((Ask::Get, "u", "id", "[]"), 1),
        ],
        commits: true,
        items: &[],
        changes: &[
            (r#"{"n":2,"name":"b"}"#, "none"),
            (r#"{"name":"c"}"#, "none"),
        ],
        number: 16,
        questions: &[],
    },
];

/// The schema and the turns of a script.
fn script_of(number: u32) -> (&'static str, &'static [Turn]) {
    match number {
        0 => (SCHEMA, &PUTS),
        1 => (SCHEMA, &MAILED),
        2 => (SCHEMA, &REFUSED),
        3 => (SCHEMA, &WIPED),
        4 => (SCHEMA, &ABORTED),
        5 => (SCHEMA, &DEFERRED),
        6 => (SCHEMA, &BOUNDED),
        7 => (TRACKED, &TURNED),
        _ => (TRACKED, &WAYS),
    }
}

/// Whether the transactions of a script are answered so.
fn is_script<R: Wait>(rt: &R, alloc: Global, number: u32) -> Told {
    let (schema, turns) = script_of(number);
    let mut script = Script {
        turns,
        at: 0,
        kept: None,
    };
    plays(rt, alloc, schema, &mut script, turns.len())
}

#[test]
fn transactions_are_answered(rt: HostRuntime) -> Result<(), Fail> {
    for number in 0..9 {
        assert!(rt; is_script(&rt, rt.alloc(), number)?, "script {number}");
    }
    Ok(())
}
