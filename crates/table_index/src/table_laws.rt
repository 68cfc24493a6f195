//! What is known of every table, as laws of the definitions. The functions do nothing: their
//! contracts are the laws.
ghost use Rattle.std.specs.Prelude.{[]};
ghost use Rattle.table_index.specs.Watched.{HoldsRows};
ghost use Rattle.table_index.specs.Written.{HasWritten, new_change};

use crate::table::Table;
use crate::trees::cells_are_apart;

/// The trees of a table hold the entries of its rows, and no two cells of one tree have one id.
pub fn rows_are_held(table: &Table)
    ensures { HoldsRows table.now }
{
    cells_are_apart(&table.trees);
}

/// A change that begins with a table has written nothing.
pub fn nothing_is_written(table: &Table)
    ensures { HasWritten [] (new_change table.now) }
{
    let _ = table.def.len();
}
