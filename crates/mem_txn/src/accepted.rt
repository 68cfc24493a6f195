//! Accepted writes.
ghost use Rattle.std.specs.Prelude.{◌≡◌, IfOk};
ghost use Rattle.mem_txn.specs.inner.Accepted.{write_of};

use mdb_datum::Row;
use mdb_schema::TableDef;
use std::alloc::AllocError;
use std::marker::Model;

/// What a write does with its row.
#[derive(Clone, Copy, Debug, PartialEq, Eq)]
pub(crate) enum Kind {
    /// The row is put.
    Put,
    /// The row with its `id` key is removed.
    Remove,
}

/// A write that was accepted, seen as a `Write`. It shares its table's definition and its row.
#[derive(Drop)]
pub(crate) struct Accepted {
    kind: Kind,
    table: TableDef,
    row: Row,
}

impl Model for Accepted {
    ghost use Rattle.mdb_schema.specs.Write.{Write};
    ghost use Rattle.mem_txn.specs.Codes.{write_code};

    ghost Value = { Write };

    ghost coded = { write_code };

    ghost use Rattle.mem_txn.specs.inner.Views.{accepted_view};

    ghost view = { accepted_view };
}

impl Accepted {
    /// A write of a row to a table: a second owner of both. It takes no memory. `AllocError` comes
    /// where the kit's `Arc` refuses one more owner.
    pub(crate) fn of(kind: Kind, table: &TableDef, row: &Row) -> Result<Accepted, AllocError>
        ensures { IfOk result (λ w. w ≡ write_of kind table.now row.now) }
    {
        Ok(Accepted {
            kind,
            table: table.share()?,
            row: row.share()?,
        })
    }
}
