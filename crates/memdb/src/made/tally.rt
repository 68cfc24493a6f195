//! What is counted of the state that made clients leave.
ghost use Rattle.std.specs.Prelude.{◌≡◌, ◌<◌, ◌+◌, ◌*◌, ◌^◌, IfOk, Ok, length};
ghost use Rattle.mdb_schema.specs.Answer.{ask};
ghost use Rattle.mdb_schema.specs.declared.answer.Answer.TheVariants.{Many};
ghost use Rattle.memdb.specs.Made.{Numbers, ages, all_items, last_items};
ghost use Rattle.memdb.specs.inner.LastState.{IsLastMade};
ghost use Rattle.memdb.specs.inner.MadeInputs.{age_in, ages_in, all_rows};

use mdb_datum::{Datum, Items, Row, Text};
use mdb_schema::{Answer, Ask, AskError, Query, Rows};
use mem_txn::ReadTxn;
use std::alloc::{AllocError, Global};

/// How many commits there are and rows are left, and the sum of their ages.
#[derive(Clone, Copy)]
pub(crate) struct Tally {
    pub(crate) commits: u64,
    pub(crate) rows: u64,
    pub(crate) ages: u64,
}

impl Tally {
    /// What is counted of a state that made clients leave. It takes memory for a question and for
    /// the list of rows that it is answered.
    pub(crate) fn of(alloc: Global, last: &ReadTxn) -> Result<Tally, AllocError>
        requires { (n : Numbers) × IsLastMade n last.now.view }
        ensures { IfOk result (λ t. (n : Numbers) → IsLastMade n last.now.view
            → (t.commits ≡ n.clients * n.count) × (t.rows ≡ length (last_items (all_items n)))
            × (t.ages ≡ ages (last_items (all_items n)))) }
    {
        let rows = rows_left(alloc, last)?;
        Ok(Tally {
            commits: last.number(),
            rows: rows.len() as u64,
            ages: sum_of_ages(&rows),
        })
    }
}

/// All rows of the table `items`. Its only error is want of memory.
fn rows_left(alloc: Global, last: &ReadTxn) -> Result<Rows, AllocError>
    requires { (n : Numbers) × IsLastMade n last.now.view }
    ensures { IfOk result (λ rows.
        ask last.now.view.schema last.now.view.state all_rows ≡ Ok (Many rows)) }
{
    let question = all_rows(alloc)?;
    match last.ask(&question) {
        Ok(Answer::Many(rows)) => Ok(rows),
        Ok(Answer::One(_)) => unreachable!(),
        Err(error) => Err(want_of_memory(error)),
    }
}

/// Want of memory, where an error is nothing else.
fn want_of_memory(error: AskError) -> AllocError
    requires { error ≡ AskError.Memory }
{
    match error {
        AskError::Memory => AllocError,
        _ => unreachable!(),
    }
}

/// The question for all rows of the table `items`, by their names.
fn all_rows(alloc: Global) -> Result<Query, AllocError>
    ensures { IfOk result (λ q. q ≡ all_rows) }
{
    let table = Text::of(alloc, "items")?;
    let index = Text::of(alloc, "id")?;
    Query::from_parts(alloc, Ask::Get, table, index, Items::new(alloc))
}

/// The sum of the rows' ages.
fn sum_of_ages(rows: &Rows) -> u64
    requires { ages_in rows.now < 2 ^ 64 }
    ensures { result ≡ ages_in rows.now }
{
    let mut sum = 0;
    for at in 0..rows.len() {
        let Some(row) = rows.get(at) else {
            unreachable!();
        };
        sum += age_of(row);
    }
    sum
}

/// The age of a row; 0 where it has none.
fn age_of(row: &Row) -> u64
    requires { age_in row.now < 2 ^ 64 }
    ensures { result ≡ age_in row.now }
{
    match row.get("age") {
        Some(Datum::Whole(age)) if *age >= 0 => *age as u64,
        _ => 0,
    }
}
