//! What a commit tells of tracked tables.
ghost use Rattle.std.specs.Prelude.{◌≡◌};
ghost use Rattle.mem_txn.specs.Transactions.{txn_of};

use super::drawn::{Plain, text_of};
use super::steps::{is_put, is_row, is_wiped};
use super::{Question, Rounds, Told, Txn, Work, are_both, holds, plays};
use mdb_datum::Row;
use mdb_schema::Ask;
use mem_txn::{ChangeList, ReadTxn, Receipt};
use std::alloc::{AllocError, Global};
use std::test::Fail;
use watch_word::Front;

/// The tables `t`, which is tracked, and `u`, which isn't.
pub static TRACKED: &str = r#"{"memdb":2,"tables":{
    "t":{"indexes":{"id":{"unique":true,"indexer":{"kind":"text","field":"name"}}},"tracked":true},
    "u":{"indexes":{"id":{"unique":true,"indexer":{"kind":"text","field":"name"}}}}}}"#;

/// Those of the long run, of which the users are tracked.
pub static TRACKED_USERS: &str = r#"{"memdb":2,"tables":{
    "notes":{"indexes":{"id":{"unique":true,"indexer":{"kind":"text","field":"name"}}}},
    "users":{"indexes":{"age":{"indexer":{"kind":"uint","field":"age","width":2}},
    "id":{"unique":true,"indexer":{"kind":"text","field":"name"}},
    "mail":{"unique":true,"allow_missing":true,"indexer":{"kind":"text","field":"mail"}},
    "tags":{"allow_missing":true,"indexer":{"kind":"text_list","field":"tags"}}},"tracked":true}}}"#;

/// Whether a row has this text, or none is there where that is `none`.
fn is_text(row: Option<&Row>, expected: &str) -> Told {
    match row {
        Some(row) => is_row(row, expected),
        None => Ok(expected == "none"),
    }
}

/// Whether the change at a place is of this table, with these rows before and after.
fn is_change(changes: &ChangeList, at: usize, table: u32, rows: (&str, &str)) -> Told {
    match changes.get(at) {
        Some(change) if change.table() == table => are_both(
            is_text(change.before(), rows.0),
            is_text(change.after(), rows.1),
        ),
        _ => Ok(false),
    }
}

/// Whether the changes, all of the first table, have these rows before and after.
pub fn are_changes(changes: &ChangeList, expected: &[(&str, &str)]) -> Told {
    for (at, rows) in expected.iter().enumerate() {
        if !is_change(changes, at, 0, *rows)? {
            return Ok(false);
        }
    }
    Ok(changes.get(changes.len()).is_none() && changes.len() == expected.len())
}

/// The text of a row, or `none`.
fn text_or_none(row: Option<usize>) -> &'static str {
    match row {
        Some(row) => text_of(row),
        None => "none",
    }
}

/// Whether the changes are the difference of the users.
pub fn are_different(changes: &ChangeList, before: &Plain, after: &Plain) -> Told {
    let mut at = 0usize;
    for place in 0..6 {
        let rows = (text_or_none(before[place]), text_or_none(after[place]));
        if before[place] != after[place] {
            if !is_change(changes, at, 1, rows)? {
                return Ok(false);
            }
            at = at.saturating_add(1);
        }
    }
    Ok(changes.len() == at)
}

// ---- many rows

/// How many rows are put and wiped.
const MANY: u64 = 10_000;

/// The question of all rows.
const ALL: Question = (Ask::Get, "t", "id", "[]");

/// The text of a row named by five digits.
fn numbered(alloc: Global, number: u64) -> Result<String, AllocError> {
    let name = 10_000 + number % 90_000;
    format!(in alloc; "{{\"name\":\"{name}\"}}")
}

/// Whether a row with a number is put, and is new.
fn is_new(alloc: Global, txn: &mut Txn, number: u64) -> Told
    ensures { (txn_of txn.new).caller ≡ (txn_of txn.old).caller }
{
    match numbered(alloc, number) {
        Ok(text) => is_put(alloc, txn, &("t", &text, "inserted")),
        Err(AllocError) => Err(AllocError),
    }
}

/// Puts many rows in, the last first.
fn put_all(alloc: Global, txn: &mut Txn) -> Told
    ensures { (txn_of txn.new).caller ≡ (txn_of txn.old).caller }
{
    for number in 0..MANY {
        match is_new(alloc, txn, MANY - 1 - number) {
            Ok(true) => {}
            told => return told,
        }
    }
    Ok(true)
}

/// Whether the change with a number is that its row has gone, or has come.
fn is_numbered(alloc: Global, changes: &ChangeList, number: u64, gone: bool) -> Told {
    let text = numbered(alloc, number)?;
    if gone {
        is_change(changes, number as usize, 0, (&text, "none"))
    } else {
        is_change(changes, number as usize, 0, ("none", &text))
    }
}

/// Whether the changes are that many rows have gone, or have come, rising by name.
fn are_numbered(alloc: Global, changes: &ChangeList, gone: bool) -> Told {
    for number in 0..MANY {
        if !is_numbered(alloc, changes, number, gone)? {
            return Ok(false);
        }
    }
    Ok(changes.len() == MANY as usize)
}

/// The insert of many rows, and then the wipe of all.
#[derive(Drop)]
struct Fill {
    wipes: bool,
}

impl Work for Fill {
    /// Puts the rows in, or wipes them.
    fn run(&mut self, alloc: Global, txn: &mut Txn) -> Told {
        if self.wipes {
            is_wiped(alloc, txn, &ALL, MANY)
        } else {
            put_all(alloc, txn)
        }
    }
}

impl Rounds for Fill {
    /// Whether a commit tells of each row.
    fn is_ended(&mut self, alloc: Global, receipt: Option<Receipt<String>>) -> Told {
        match receipt {
            Some(receipt) => are_numbered(alloc, &receipt.changes, self.wipes),
            None => Ok(false),
        }
    }

    /// Wipes next.
    fn is_left(&mut self, _alloc: Global, _read: &ReadTxn, _log: &Front) -> Told {
        self.wipes = true;
        Ok(true)
    }
}

#[test]
fn ten_thousand_rows_come_and_are_wiped(rt: HostRuntime) -> Result<(), Fail> {
    let mut fill = Fill { wipes: false };
    holds(plays(&rt, rt.alloc(), TRACKED, &mut fill, 2))
}
