//! What writes make of a table is told once for each row that differs.
ghost use Rattle.std.specs.Prelude.{◌≡◌};

use super::played::filled;
use super::told::tell_one;
use super::work::{Base, Work};
use super::{USERS, Wrong, asked, none_wrong, row_of};
use mdb_datum::Row;
use mdb_schema::Ask;
use std::alloc::{AllocError, Global};
use std::test::Fail;
use table_index::NetList;

/// The rows of the table before the writes.
static ROWS: &str = r#"insert {"age":1,"name":"ann"} => inserted
insert {"age":2,"name":"bob"} => inserted
insert {"age":3,"name":"bobby"} => inserted
"#;

/// Two writes, and the rows before and after, a line for each row that differs. A write is `put`
/// or `remove` with a row, or else a wipe of all rows.
type Case = (&'static str, &'static str, &'static str);

static CASES: [Case; 6] = [
    // Rows in the place of equal ones are no changes, nor are writes that undo each other.
    (
        r#"put {"name":"bob","age":2}"#,
        r#"put {"age":1,"name":"ann"}"#,
        "",
    ),
    (
        r#"put {"age":4,"name":"bo"}"#,
        r#"remove {"name":"bo"}"#,
        "",
    ),
    (
        r#"remove {"name":"ann"}"#,
        r#"put {"age":1,"name":"ann"}"#,
        "",
    ),
    (
        r#"put {"age":5,"name":"bob"}"#,
        r#"put {"age":6,"name":"bob"}"#,
        r#"row {"age":2,"name":"bob"} row {"age":6,"name":"bob"}
"#,
    ),
    (
        r#"remove {"name":"bobby"}"#,
        r#"put {"age":4,"name":"bo"}"#,
        r#"none row {"age":4,"name":"bo"}
row {"age":3,"name":"bobby"} none
"#,
    ),
    (
        "wipe",
        r#"put {"age":2,"name":"bob"}"#,
        r#"row {"age":1,"name":"ann"} none
row {"age":3,"name":"bobby"} none
"#,
    ),
];

/// Counts what didn't succeed as want of memory, which ends a test.
fn done(well: bool) -> Result<(), AllocError> {
    if well { Ok(()) } else { Err(AllocError) }
}

/// Writes a row.
fn write_row(work: &mut Work, word: &str, row: &Row) -> Result<(), AllocError>
    ensures schema { work.new.schema ≡ work.old.schema }
    ensures start { work.new.start ≡ work.old.start }
{
    if word == "put" {
        done(work.put(row).is_ok())
    } else {
        done(work.remove(row).is_ok())
    }
}

/// Takes out all rows.
fn wipe(alloc: Global, work: &mut Work) -> Result<(), AllocError>
    ensures schema { work.new.schema ≡ work.old.schema }
    ensures start { work.new.start ≡ work.old.start }
{
    let query = asked(alloc, Ask::Get, "id", "[]")?;
    done(work.take_all(&query).is_ok())
}

/// Does a write.
fn write(alloc: Global, work: &mut Work, line: &str) -> Result<(), AllocError>
    ensures schema { work.new.schema ≡ work.old.schema }
    ensures start { work.new.start ≡ work.old.start }
{
    match line.split_once(' ') {
        Some((word, text)) => write_row(work, word, &row_of(alloc, text)?),
        None => wipe(alloc, work),
    }
}

/// What the writes of a case make of the table.
fn net_of(alloc: Global, base: &Base, case: &Case) -> Result<NetList, AllocError> {
    let mut work = base.txn()?;
    write(alloc, &mut work, case.0)?;
    write(alloc, &mut work, case.1)?;
    work.net(base)
}

/// The rows before and after, a line for each row that differs.
fn told(alloc: Global, net: &NetList) -> Result<String, AllocError> {
    let mut out = String::new(alloc);
    for at in 0..net.len() {
        tell_at(net, at, &mut out)?;
    }
    Ok(out)
}

/// Adds a line for the row at a place.
fn tell_at(net: &NetList, at: usize, out: &mut String) -> Result<(), AllocError> {
    let Some(net) = net.get(at) else {
        return Ok(());
    };
    tell_one(net.before(), out)?;
    out.push(' ')?;
    tell_one(net.after(), out)?;
    out.push('\n')
}

/// Whether that is what a case says.
fn is_right(alloc: Global, base: &Base, case: &Case) -> Result<bool, AllocError> {
    let net = net_of(alloc, base, case)?;
    Ok(told(alloc, &net)?.as_str() == case.2)
}

/// The first write of the first case that is told another way.
fn first_wrong_of(alloc: Global, base: &Base) -> Wrong {
    for case in &CASES {
        if !is_right(alloc, base, case)? {
            return Ok(Some(case.0));
        }
    }
    Ok(None)
}

/// The same of a table of those rows.
fn first_wrong(alloc: Global) -> Wrong {
    let base = filled(alloc, USERS, ROWS)?;
    first_wrong_of(alloc, &base)
}

#[test]
fn what_writes_make_of_a_table_is_told_once(rt: HostRuntime) -> Result<(), Fail> {
    none_wrong(first_wrong(rt.alloc()))
}
