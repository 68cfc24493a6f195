//! The cells of an old tree that have left it.
ghost use Rattle.std.specs.Prelude.{◌≡◌, ◌≤◌, ◌<◌, ◌∷◌, ◌++◌, [], OnErr, OnOk, length, map};
ghost use Rattle.std.specs.Arc.{arc_value};
ghost use Rattle.radix_node.specs.Left.{leave};

use std::alloc::{AllocError, Global};
use std::marker::Model;
use std::snapshot::Snapshot;
use std::sync::Arc;
use watch_word::WatchCell;

/// How many cells are kept in a list. Beyond that they are only counted.
pub const LISTED_CELLS: usize = 8_192;

/// The cells of an old tree that have left it. Up to [`LISTED_CELLS`] are kept in a list; at the
/// next one the list is dropped. Contracts see all of them, in the order in which they left.
#[derive(Drop)]
pub struct Left {
    /// The cells, while they are few enough.
    listed: Vec<Arc<WatchCell>>,
    /// All of them as contracts see them, without bytes.
    all: Vec<Snapshot<WatchCell>>,
}

impl Model for Left {
    ghost use Rattle.std.specs.Prelude.{List, map};
    ghost use Rattle.std.specs.Arc.{arc_value};
    ghost use Rattle.watch_word.specs.Logs.{Cell};
    ghost use Rattle.radix_node.specs.inner.Listed.{IsListed};

    ghost Value = { List Cell };

    ghost view = { λ l. map (λ s. s.value) l.all.items };

    ghost invariant = { λ l.
        IsListed (map arc_value l.listed.items) (map (λ s. s.value) l.all.items) };
}

impl Left {
    /// No cells. It takes no memory.
    pub fn new(alloc: Global) -> Left
        ensures { result ≡ [] }
    {
        Left {
            listed: Vec::new(alloc),
            all: Vec::new(alloc),
        }
    }

    /// How many cells there are.
    pub fn len(&self) -> usize
        ensures { result ≡ length self.now }
    {
        self.all.len()
    }

    /// The list of the cells; it is empty where there are more than [`LISTED_CELLS`].
    pub fn listed(&self) -> &[Arc<WatchCell>]
        ensures listed { length self.now ≤ 8192 → map arc_value result.now ≡ self.now }
        ensures beyond { 8192 < length self.now → result.now ≡ [] }
    {
        &self.listed
    }

    /// Adds a cell, if its id is below `first`. It takes memory where the list has no room, and is
    /// refused only for want of it, or of room to count one more owner of the cell.
    pub fn push(&mut self, first: u64, cell: &Arc<WatchCell>) -> Result<(), AllocError>
        ensures { OnOk result (self.new ≡ leave first (arc_value cell.now) self.old) }
    {
        if cell.id() < first {
            self.add(cell)?;
        }
        Ok(())
    }

    /// Adds a cell to those that are seen, and to the list where it has room for one more.
    fn add(&mut self, cell: &Arc<WatchCell>) -> Result<(), AllocError>
        ensures { OnOk result (self.new ≡ self.old ++ arc_value cell.now ∷ []) }
    {
        self.all.push(Snapshot::of(cell))?;
        if self.all.len() > LISTED_CELLS {
            self.listed = Vec::new(*self.listed.allocator());
            return Ok(());
        }
        let listed = list(cell, &mut self.listed);
        if listed.is_err() {
            self.all.pop();
        }
        listed
    }
}

/// Adds a cell to a list.
fn list(cell: &Arc<WatchCell>, into: &mut Vec<Arc<WatchCell>>) -> Result<(), AllocError>
    ensures listed { OnOk result (map arc_value into.new.items
        ≡ map arc_value into.old.items ++ arc_value cell.now ∷ []) }
    ensures unchanged { OnErr result (into.new.items ≡ into.old.items) }
{
    into.push(Arc::try_clone(cell)?)?;
    Ok(())
}
