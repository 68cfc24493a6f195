//! The calls that are to fail.
ghost use Rattle.std.specs.Prelude.{◌≡◌, ◌↔◌, [], ◌∷◌, ◌++◌, IsTrue, Contains, is_ok};
ghost use Rattle.std.specs.Prelude.{if◌then◌else◌};

use std::alloc::{AllocError, Global};
use std::marker::Model;

/// Numbers of calls, counted from 1, in the order in which they were listed.
#[derive(Debug, Drop)]
pub struct CallList {
    calls: Vec<u64>,
}

impl Model for CallList {
    ghost use Rattle.std.specs.Prelude.{List, ℕ};

    ghost Value = { List ℕ };

    ghost view = { λ l. l.calls.items };
}

impl CallList {
    /// An empty list. It takes no memory.
    pub fn new(alloc: Global) -> CallList
        ensures { result ≡ [] }
    {
        CallList {
            calls: Vec::new(alloc),
        }
    }

    /// Adds a number at the end. After `AllocError` the list is unchanged.
    pub fn push(&mut self, item: u64) -> Result<(), AllocError>
        ensures { self.new ≡ (if is_ok result then self.old ++ item ∷ [] else self.old) }
    {
        self.calls.push(item)?;
        Ok(())
    }

    /// Whether a number is listed. It looks at each number.
    pub(crate) fn has(&self, call: u64) -> bool
        ensures { IsTrue result ↔ Contains self.now call }
    {
        self.calls.contains(&call)
    }
}
