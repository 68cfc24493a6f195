//! The answer to a question, as it is written.
ghost use Rattle.std.specs.Prelude.{◌≡◌, ◌<◌, ◌++◌, IfOk, OnOk, Some, length, map, option_copied};
ghost use Rattle.std.specs.Prelude.{false, if◌then◌else◌, reverse, slice_get};
ghost use Rattle.mdb_datum.specs.Written.{row_text};
ghost use Rattle.mdb_schema.specs.Answer.{picked};
ghost use Rattle.mdb_schema.specs.declared.answer.Answer.TheVariants.{Many, One};
ghost use Rattle.client_script.specs.Reply.{answer_text, further, row_lines};
ghost use Rattle.run_check.specs.inner.AnswerView.{IsForMany, IsForOne, KeysRise, answer_at};
ghost use Rattle.run_check.specs.inner.AnswerView.{end_item, has_row, is_meant, is_reverse};
ghost use Rattle.run_check.specs.inner.EditView.{seen_of};
ghost use Rattle.run_check.specs.inner.IndexView.{KeyVersions, Means};

use crate::index::{Index, Keys};
use crate::lookup::Lookup;
use crate::sight::Sight;
use crate::slots::{first_row, last_row};
use mdb_datum::Row;
use mdb_schema::Ask;
use run_io::write_number;
use std::alloc::{AllocError, Global};

/// The first row that a question means, or the last one.
fn end_row<'a>(
    alloc: Global,
    index: &'a Index,
    at: &Lookup,
    sight: Sight,
    is_last: bool,
) -> Result<Option<&'a Row>, AllocError>
    ensures { KeysRise (seen_of sight index.now) → IfOk result (λ row. option_copied row
        ≡ end_item is_last (picked at.now.exact at.now.key.items (seen_of sight index.now))) }
{
    if at.exact {
        return Ok(index.row(&at.key, sight));
    }
    let keys = Keys::with_prefix(alloc, &at.key)?;
    let slots = index.slots_of(&keys);
    if is_last {
        Ok(last_row(slots, sight))
    } else {
        Ok(first_row(slots, sight))
    }
}

/// The answer to a question for one row.
fn one_row<'a>(
    alloc: Global,
    index: &'a Index,
    ask: Ask,
    at: &Lookup,
    sight: Sight,
) -> Result<Option<&'a Row>, AllocError>
    requires { IsForOne ask }
    ensures { KeysRise (seen_of sight index.now) → IfOk result (λ row.
        One (option_copied row) ≡ answer_at ask at.now (seen_of sight index.now)) }
{
    match ask {
        Ask::First => end_row(alloc, index, at, sight, false),
        Ask::Last => end_row(alloc, index, at, sight, true),
        Ask::Longest => Ok(index.longest(&at.key, sight)),
        _ => unreachable!(),
    }
}

/// The keys of the entries that a question for rows means.
fn keys_meant(alloc: Global, ask: Ask, at: &Lookup) -> Result<Keys, AllocError>
    requires { IsForMany ask }
    ensures { IfOk result (λ keys. Means keys (is_meant ask at.now.key.items)) }
{
    match ask {
        Ask::Lower => Keys::at_least(alloc, &at.key),
        Ask::ReverseLower => Keys::at_most(alloc, &at.key),
        _ => Keys::with_prefix(alloc, &at.key),
    }
}

/// Whether a question tells its rows against their order.
fn is_reverse(ask: Ask) -> bool
    ensures { result ≡ is_reverse ask }
{
    matches!(ask, Ask::GetReverse | Ask::ReverseLower)
}

/// The answer to a question for rows, in the order of their keys.
fn rows_meant<'a>(
    alloc: Global,
    index: &'a Index,
    ask: Ask,
    at: &Lookup,
    sight: Sight,
) -> Result<Vec<&'a Row>, AllocError>
    requires { IsForMany ask }
    ensures { IfOk result (λ rows. let found = map (λ r. r.now) rows.items in
        Many (if is_reverse ask then reverse found else found)
        ≡ answer_at ask at.now (seen_of sight index.now)) }
{
    let keys = keys_meant(alloc, ask, at)?;
    index.rows(alloc, &keys, sight)
}

/// Adds `row DOC`, or `none`.
fn write_row(row: Option<&Row>, out: &mut Vec<u8>) -> Result<(), AllocError>
    ensures { OnOk result (out.new.items
        ≡ out.old.items ++ answer_text (One (option_copied row.entry))) }
{
    match row {
        Some(row) => {
            out.extend_from_slice(b"row ")?;
            row.append_doc(out)
        }
        None => out.extend_from_slice(b"none"),
    }
}

/// Adds a further line with a row.
fn write_further(row: &Row, out: &mut Vec<u8>) -> Result<(), AllocError>
    ensures { OnOk result (out.new.items ≡ out.old.items ++ further (row_text row.now)) }
{
    out.extend_from_slice(b"\n  ")?;
    row.append_doc(out)
}

/// Adds a further line for each row.
fn write_forward(rows: &[&Row], out: &mut Vec<u8>) -> Result<(), AllocError>
    ensures { OnOk result (out.new.items
        ≡ out.old.items ++ row_lines (map (λ r. r.now) rows.now)) }
{
    for row in rows {
        write_further(row, out)?;
    }
    Ok(())
}

/// Adds a further line for each row, the last first.
fn write_backward(rows: &[&Row], out: &mut Vec<u8>) -> Result<(), AllocError>
    ensures { OnOk result (out.new.items
        ≡ out.old.items ++ row_lines (reverse (map (λ r. r.now) rows.now))) }
{
    let mut left = rows.len();
    while left > 0 {
        left -= 1;
        write_further(rows[left], out)?;
    }
    Ok(())
}

/// Adds `rows k` and a further line for each row.
fn write_rows(rows: &[&Row], is_reverse: bool, out: &mut Vec<u8>) -> Result<(), AllocError>
    ensures { OnOk result (let found = map (λ r. r.now) rows.now in out.new.items
        ≡ out.old.items ++ answer_text (Many (if is_reverse then reverse found else found))) }
{
    out.extend_from_slice(b"rows ")?;
    write_number(rows.len() as u64, out)?;
    if is_reverse {
        write_backward(rows, out)
    } else {
        write_forward(rows, out)
    }
}

/// Adds the answer to a question for one row, and tells whether there is one.
fn write_one(
    alloc: Global,
    index: &Index,
    ask: Ask,
    at: &Lookup,
    sight: Sight,
    out: &mut Vec<u8>,
) -> Result<bool, AllocError>
    requires { IsForOne ask }
    ensures { KeysRise (seen_of sight index.now) → IfOk result (λ found.
        let told = answer_at ask at.now (seen_of sight index.now) in
        (out.new.items ≡ out.old.items ++ answer_text told) × (found ≡ has_row told)) }
{
    let row = one_row(alloc, index, ask, at, sight)?;
    write_row(row, out)?;
    Ok(row.is_some())
}

/// Adds the answer to a question for rows.
fn write_many(
    alloc: Global,
    index: &Index,
    ask: Ask,
    at: &Lookup,
    sight: Sight,
    out: &mut Vec<u8>,
) -> Result<(), AllocError>
    requires { IsForMany ask }
    ensures { OnOk result (let told = answer_at ask at.now (seen_of sight index.now) in
        (out.new.items ≡ out.old.items ++ answer_text told) × (has_row told ≡ false)) }
{
    let rows = rows_meant(alloc, index, ask, at, sight)?;
    write_rows(&rows, is_reverse(ask), out)
}

/// Adds the answer to a question, and tells whether it has a row, where it is for one.
pub(crate) fn write_answer(
    alloc: Global,
    indexes: &[Index],
    ask: Ask,
    at: &Lookup,
    sight: Sight,
    out: &mut Vec<u8>,
) -> Result<bool, AllocError>
    requires { at.now.index < length indexes.now }
    ensures { (x : KeyVersions) → slice_get indexes.now at.now.index ≡ Some x
        → KeysRise (seen_of sight x) → IfOk result (λ found. let told = answer_at ask at.now (seen_of sight x) in
        (out.new.items ≡ out.old.items ++ answer_text told) × (found ≡ has_row told)) }
{
    let index = &indexes[at.index];
    match ask {
        Ask::First | Ask::Last | Ask::Longest => write_one(alloc, index, ask, at, sight, out),
        Ask::Get | Ask::GetReverse | Ask::Lower | Ask::ReverseLower => {
            write_many(alloc, index, ask, at, sight, out)?;
            Ok(false)
        }
    }
}
