//! What refuses a wipe before its first change.
ghost use Rattle.std.specs.Prelude.{◌≡◌, IfOk, Ok, Err, Some, if◌then◌else◌, slice_get};
ghost use Rattle.mdb_schema.specs.Answer.{is_prefix_name, lookup_of};
ghost use Rattle.mdb_schema.specs.Wipe.{wiped_rows, wiped_rows_by_prefix};
ghost use Rattle.mdb_schema.specs.declared.ask.Ask.TheVariants.{Get};
ghost use Rattle.mdb_schema.specs.declared.ask_error.AskError.TheVariants.{NoPrefixName};
ghost use Rattle.table_index.specs.Table.{AnswersCheck};
ghost use Rattle.table_index.specs.declared.wipe_error.WipeError.TheVariants.{Refused};
ghost use Rattle.table_index.specs.inner.Wipes.{AnswersTarget, wipe_error};

use crate::lookup::{Target, lookup};
use crate::table::Table;
use crate::wipe_error::WipeError;
use mdb_schema::question::is_prefix_name;
use mdb_schema::{Ask, AskError, Query, TableDef};
use std::alloc::Global;

impl Table {
    /// The rule by which [`TableTxn::take_all`](crate::TableTxn::take_all) of a change that begins
    /// with this table is refused, if there is one. It takes memory for the key of the question's
    /// arguments; want of it is never told in place of a rule.
    pub fn check_take_all(&self, query: &Query) -> Result<(), WipeError>
        ensures { AnswersCheck (wiped_rows self.now.schema self.now.rows query.now) result }
    {
        let alloc = *self.trees.allocator();
        match wipe_target(alloc, &self.def, query) {
            Ok(_at) => Ok(()),
            Err(error) => Err(error),
        }
    }

    /// The same for [`TableTxn::take_prefix`](crate::TableTxn::take_prefix).
    pub fn check_take_prefix(&self, query: &Query) -> Result<(), WipeError>
        ensures { AnswersCheck
            (wiped_rows_by_prefix self.now.schema self.now.rows query.now) result }
    {
        check_prefix_name(query)?;
        self.check_take_all(query)
    }
}

/// Refuses a question whose name of an index doesn't end in `_prefix`.
pub(crate) fn check_prefix_name(query: &Query) -> Result<(), WipeError>
    ensures { result
        ≡ (if is_prefix_name query.now.index then Ok tt else Err (Refused NoPrefixName)) }
{
    if is_prefix_name(query.index().as_str()) {
        Ok(())
    } else {
        Err(WipeError::Refused(AskError::NoPrefixName))
    }
}

/// Where the rows of a wipe are listed, or the first rule that its question breaks. It takes memory
/// for the key of the question's arguments.
pub(crate) fn wipe_target<'a>(
    alloc: Global,
    def: &'a TableDef,
    query: &Query,
) -> Result<Target<'a>, WipeError>
    ensures answers { AnswersTarget (lookup_of def.now (record query.now { ask = Get })) result }
    ensures there { IfOk result (λ l. slice_get def.now.indexes l.place ≡ Some l.index) }
{
    match lookup(alloc, def, Ask::Get, query) {
        Ok(at) => Ok(at),
        Err(error) => Err(wipe_error(error)),
    }
}

/// The error of a wipe whose question has this error.
fn wipe_error(error: AskError) -> WipeError
    ensures { result ≡ wipe_error error }
{
    match error {
        AskError::Memory => WipeError::Memory,
        error => WipeError::Refused(error),
    }
}
