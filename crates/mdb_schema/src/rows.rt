//! A list of rows.
ghost use Rattle.std.specs.Prelude.{◌≡◌, ◌++◌, ◌∷◌, [], length, is_ok, if◌then◌else◌, slice_get};
ghost use Rattle.std.specs.Prelude.{option_copied};
ghost use Rattle.std.specs.Slice.Iter.{iter_rest};

use mdb_datum::Row;
use std::alloc::{AllocError, Global};
use std::marker::Model;
use std::slice;

/// Rows, in the order in which they were added.
#[derive(Drop)]
pub struct Rows {
    rows: Vec<Row>,
}

impl Model for Rows {
    ghost use Rattle.std.specs.Prelude.{List};
    ghost use Rattle.mdb_datum.specs.Row.{Fields};
    ghost use Rattle.mdb_schema.specs.QueryCodes.{rows_code};

    ghost Value = { List Fields };

    ghost coded = { rows_code };

    ghost view = { λ r. r.rows.items };
}

impl Rows {
    /// No rows. It takes no memory.
    pub fn new(alloc: Global) -> Rows
        ensures { result ≡ [] }
    {
        Rows {
            rows: Vec::new(alloc),
        }
    }

    /// How many there are.
    pub fn len(&self) -> usize
        ensures { result ≡ length self.now }
    {
        self.rows.len()
    }

    /// Adds a row at the end. After `AllocError` the list is unchanged.
    pub fn push(&mut self, row: Row) -> Result<(), AllocError>
        ensures { self.new ≡ (if is_ok result then self.old ++ row ∷ [] else self.old) }
    {
        self.rows.push(row)?;
        Ok(())
    }

    /// The row at a place, counted from 0.
    pub fn get(&self, at: usize) -> Option<&Row>
        ensures { option_copied result ≡ slice_get self.now at }
    {
        self.rows.get(at)
    }

    /// The rows, in order.
    pub fn iter(&self) -> slice::Iter<'_, Row>
        ensures { iter_rest result ≡ self.now }
    {
        self.rows.iter()
    }
}
