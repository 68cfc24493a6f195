//! Leaves.
ghost use Rattle.std.specs.Prelude.{◌≡◌, IfOk};
ghost use Rattle.std.specs.Arc.{arc_value};

use mdb_datum::Row;
use std::alloc::{AllocError, Global};
use std::marker::Model;
use std::mem;
use std::sync::Arc;
use watch_word::WatchCell;

/// A key and the row under it, with a cell, shared, and then never changed.
#[derive(Drop)]
pub struct Leaf {
    key: Vec<u8>,
    row: Row,
    cell: Arc<WatchCell>,
}

impl Model for Leaf {
    ghost use Rattle.std.specs.Arc.{arc_value};
    ghost use Rattle.radix_node.specs.Cells.{CellLeaf};
    ghost use Rattle.radix_node.specs.Codes.{cell_leaf_code};

    ghost Value = { CellLeaf };

    ghost coded = { cell_leaf_code };

    ghost view = { λ l. record { cell = arc_value l.cell; pair = (l.key.items, l.row) } };
}

impl Leaf {
    /// A leaf with a copy of the key, which shares the row. It takes memory for the key and for the
    /// leaf, and is refused only for want of memory, or of room to count one more owner of the row.
    pub fn of(
        alloc: Global,
        key: &[u8],
        row: &Row,
        cell: Arc<WatchCell>,
    ) -> Result<Arc<Leaf, Global>, AllocError>
        ensures { IfOk result (λ a. arc_value a
            ≡ record { cell = arc_value cell; pair = (key.now, row.now) }) }
    {
        let leaf = Leaf {
            key: Vec::from_slice(alloc, key)?,
            row: row.share()?,
            cell,
        };
        Ok(Arc::new(alloc, leaf)?)
    }

    /// The whole key.
    pub fn key(&self) -> &[u8]
        ensures { let pair = self.now.pair in result.now ≡ pair.0 }
    {
        &self.key
    }

    /// The row.
    pub fn row(&self) -> &Row
        ensures { let pair = self.now.pair in result.now ≡ pair.1 }
    {
        &self.row
    }

    /// Puts another row in the place of the one that is there, and gives that.
    pub fn put_row(&mut self, row: Row) -> Row
        ensures row { let pair = self.old.pair in result ≡ pair.1 }
        ensures leaf { let pair = self.old.pair in
            self.new ≡ record { cell = self.old.cell; pair = (pair.0, row) } }
    {
        mem::replace(&mut self.row, row)
    }

    /// The cell.
    pub fn cell(&self) -> &Arc<WatchCell>
        ensures { arc_value result.now ≡ self.now.cell }
    {
        &self.cell
    }
}
