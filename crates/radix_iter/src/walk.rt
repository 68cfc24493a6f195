//! A walk.
ghost use Rattle.std.specs.Prelude.{◌≡◌, IfOk, OnErr, OnOk, drop, option_copied, option_to_list};
ghost use Rattle.mdb_datum.specs.Pairs.{first_item};
ghost use Rattle.radix_iter.specs.inner.Rests.{rest_rows};

use crate::level::{Level, next_falling, next_rising};
use mdb_datum::Row;
use std::alloc::AllocError;
use std::marker::Model;

/// The levels of which a walk has yet to give the rows, the last level first: in the order of the
/// keys, or against it.
#[derive(Drop)]
pub(crate) enum Rest<'a> {
    Nothing,
    Rising(Vec<Level<'a>>),
    Falling(Vec<Level<'a>>),
}

/// A walk over a tree that it borrows, seen as the rows that are still to come. It keeps the place
/// where it stands, and no row of its own.
#[derive(Drop)]
pub struct Walk<'a> {
    /// A row that comes before the rest.
    first: Option<&'a Row>,
    rest: Rest<'a>,
}

impl<'a> Model for Walk<'a> {
    ghost use Rattle.std.specs.Prelude.{List};
    ghost use Rattle.std.specs.Coded.{coded_list};
    ghost use Rattle.mdb_datum.specs.Row.{Fields};
    ghost use Rattle.mdb_datum.specs.Codes.{fields_code};

    ghost Value = { List Fields };

    ghost coded = { coded_list fields_code };

    ghost use Rattle.std.specs.Prelude.{◌++◌, option_copied, option_to_list};
    ghost use Rattle.radix_iter.specs.inner.Rests.{rest_rows};

    ghost view = { λ w. option_to_list (option_copied w.first) ++ rest_rows w.rest };
}

/// A walk over one row, or over none. It takes no memory.
pub fn one<'a>(row: Option<&'a Row>) -> Walk<'a>
    ensures { result ≡ option_to_list (option_copied row.entry) }
{
    Walk {
        first: row,
        rest: Rest::Nothing,
    }
}

impl<'a> Rest<'a> {
    /// The next row of the levels. After an error they have the rows that they had.
    fn next(&mut self) -> Result<Option<&'a Row>, AllocError>
        ensures next { IfOk result (λ r. option_copied r ≡ first_item (rest_rows self.old)) }
        ensures rest { OnOk result (rest_rows self.new ≡ drop 1 (rest_rows self.old)) }
        ensures unchanged { OnErr result (rest_rows self.new ≡ rest_rows self.old) }
    {
        match self {
            Rest::Nothing => Ok(None),
            Rest::Rising(levels) => next_rising(levels),
            Rest::Falling(levels) => next_falling(levels),
        }
    }
}

impl<'a> Walk<'a> {
    /// A walk over the rows of levels.
    pub(crate) fn over(rest: Rest<'a>) -> Walk<'a>
        ensures { result ≡ rest_rows rest.entry }
    {
        Walk { first: None, rest }
    }

    /// The next row. `None` comes exactly at the end, and from then on. It takes memory where the
    /// walk goes down further than before, and is refused only for want of it, or of room to count
    /// one more owner of the row; the walk is then as it was.
    pub fn next(&mut self) -> Result<Option<Row>, AllocError>
        ensures next { IfOk result (λ r. r ≡ first_item self.old) }
        ensures rest { OnOk result (self.new ≡ drop 1 self.old) }
        ensures unchanged { OnErr result (self.new ≡ self.old) }
    {
        if self.first.is_none() {
            self.first = self.rest.next()?;
        }
        let Some(row) = self.first else {
            return Ok(None);
        };
        let owner = row.share()?;
        self.first = None;
        Ok(Some(owner))
    }

    /// The next row, lent by the tree, so that it isn't counted an owner more. `None` comes exactly
    /// at the end, and from then on. It takes memory where the walk goes down further than before,
    /// and is refused only for want of it; the walk is then as it was.
    pub fn next_borrowed(&mut self) -> Result<Option<&'a Row>, AllocError>
        ensures next { IfOk result (λ r. option_copied r ≡ first_item self.old) }
        ensures rest { OnOk result (self.new ≡ drop 1 self.old) }
        ensures unchanged { OnErr result (self.new ≡ self.old) }
    {
        match self.first.take() {
            Some(row) => Ok(Some(row)),
            None => self.rest.next(),
        }
    }
}
