//! The answers to questions of a read state, written from walks over its rows.
ghost use Rattle.std.specs.Prelude.{◌≡◌, ◌++◌, ◌≤◌, IfOk, OnOk, codes, decimal, drop, length, take};
ghost use Rattle.mdb_schema.specs.Answer.{ask};
ghost use Rattle.mdb_schema.specs.declared.ask_error.AskError.TheVariants.{Memory};
ghost use Rattle.client_script.specs.Reply.{reply_text, row_lines};
ghost use Rattle.client_script.specs.RuleName.{question_name};
ghost use Rattle.client_session.specs.inner.Asking.{IsListed, asked_reply};

use crate::reply::{write_at, write_line, write_rows};
use client_script::question_name;
use mdb_schema::{Ask, AskError, Query};
use mem_txn::ReadTxn;
use radix_iter::Walk;
use std::alloc::AllocError;

/// Adds the answer to a question of a state, or the name of the rule that it breaks. The rows of a list
/// are counted and written by one walk, and no list of them is made.
pub(crate) fn write_asked(txn: &ReadTxn, query: &Query, out: &mut Vec<u8>) -> Result<(), AllocError>
    ensures text { OnOk result (out.new.items ≡ out.old.items
        ++ reply_text (asked_reply (ask txn.now.view.schema txn.now.view.state query.now))) }
    ensures before { take (length out.old.items) out.new.items ≡ out.old.items }
{
    match query.ask() {
        Ask::First | Ask::Last | Ask::Longest => write_one(txn, query, out),
        Ask::Get | Ask::GetReverse | Ask::Lower | Ask::ReverseLower => {
            write_many(txn, query, out)
        }
    }
}

/// Adds the answer of one row at most.
fn write_one(txn: &ReadTxn, query: &Query, out: &mut Vec<u8>) -> Result<(), AllocError>
    ensures text { OnOk result (out.new.items ≡ out.old.items
        ++ reply_text (asked_reply (ask txn.now.view.schema txn.now.view.state query.now))) }
    ensures before { take (length out.old.items) out.new.items ≡ out.old.items }
{
    match txn.ask(query) {
        Ok(answer) => write_rows(&answer, out),
        Err(error) => write_broken(error, out),
    }
}

/// Adds the answer that is a list of rows.
fn write_many(txn: &ReadTxn, query: &Query, out: &mut Vec<u8>) -> Result<(), AllocError>
    requires listed { IsListed query.now.ask }
    ensures text { OnOk result (out.new.items ≡ out.old.items
        ++ reply_text (asked_reply (ask txn.now.view.schema txn.now.view.state query.now))) }
    ensures before { take (length out.old.items) out.new.items ≡ out.old.items }
{
    match txn.walk(query) {
        Ok(walk) => write_counted(walk, out),
        Err(error) => write_broken(error, out),
    }
}

/// Adds how many rows a walk gives, and a line for each. The lines are written first, since how many
/// they are is known at the end of the walk.
fn write_counted(walk: Walk<'_>, out: &mut Vec<u8>) -> Result<(), AllocError>
    ensures text { OnOk result (out.new.items ≡ out.old.items
        ++ (codes "rows " ++ (decimal (length walk.entry) ++ row_lines walk.entry))) }
    ensures before { take (length out.old.items) out.new.items ≡ out.old.items }
{
    let at = out.len();
    let count = write_walk(walk, out)?;
    put_count(count, at, out)
}

/// Adds a line for each row that a walk gives, and gives their count.
fn write_walk(mut walk: Walk<'_>, out: &mut Vec<u8>) -> Result<u64, AllocError>
    ensures text { OnOk result (out.new.items ≡ out.old.items ++ row_lines walk.entry) }
    ensures count { IfOk result (λ n. n ≡ length walk.entry) }
    ensures before { take (length out.old.items) out.new.items ≡ out.old.items }
{
    let mut count: u64 = 0;
    while let Some(row) = walk.next_borrowed()? {
        write_line(row, out)?;
        // No memory has room for as many rows as a `u64` can't count.
        count = count.checked_add(1).ok_or(AllocError)?;
    }
    Ok(count)
}

/// Puts how many rows there are before their lines, which begin at this place.
fn put_count(count: u64, at: usize, out: &mut Vec<u8>) -> Result<(), AllocError>
    requires { at ≤ length out.old.items }
    ensures text { OnOk result (out.new.items
        ≡ take at out.old.items ++ ((codes "rows " ++ decimal count) ++ drop at out.old.items)) }
    ensures before { take at out.new.items ≡ take at out.old.items }
{
    let end = out.len();
    write_at(b"rows ", count, out)?;
    let (_, lines) = out.as_mut_slice().split_at_mut(at);
    lines.rotate_left(end - at);
    Ok(())
}

/// Adds the rule that a question breaks. `AllocError` comes where it is none but want of memory.
fn write_broken(error: AskError, out: &mut Vec<u8>) -> Result<(), AllocError>
    ensures text { OnOk result (out.new.items ≡ out.old.items
        ++ (codes "refused " ++ question_name error)) }
    ensures memory { OnOk result (error ≡ Memory → ⊥) }
    ensures before { take (length out.old.items) out.new.items ≡ out.old.items }
{
    match error {
        AskError::Memory => Err(AllocError),
        error => {
            out.extend_from_slice(b"refused ")?;
            out.extend_from_slice(question_name(error))?;
            Ok(())
        }
    }
}
