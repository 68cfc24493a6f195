//! Ids of new cells.
ghost use Rattle.std.specs.Prelude.{◌≡◌, ◌+◌, ◌-◌, ◌≤◌, ◌<◌, ◌^◌, false, IfOk, OnOk, OnErr};
ghost use Rattle.std.specs.Arc.{arc_value};
ghost use Rattle.watch_word.specs.Logs.{has_fired};

use std::alloc::{AllocError, Global};
use std::marker::Model;
use std::sync::Arc;
use watch_word::{Book, Front, WatchCell, open_cell};

/// One more than the greatest id.
const END: u64 = 1 << 63;

/// A counter of ids, with the book on which their cells are made. Ids are below 2^63, and rise.
/// Contracts see the book and the next id.
#[derive(Drop)]
pub struct Ids {
    book: Arc<Book>,
    next: u64,
}

impl Model for Ids {
    ghost use Rattle.std.specs.Prelude.{◌≤◌, ◌^◌};
    ghost use Rattle.std.specs.Arc.{arc_value};
    ghost use Rattle.radix_node.specs.Ids.{Counter};

    ghost Value = { Counter };

    ghost view = { λ i. record { book = arc_value i.book; next = i.next } };

    ghost invariant = { λ i. i.next ≤ 2 ^ 63 };
}

impl Ids {
    /// The ids from `next` on, of cells of a book.
    pub fn starting(book: Arc<Book>, next: u64) -> Ids
        requires { next ≤ 2 ^ 63 }
        ensures { result ≡ record { book = arc_value book; next = next } }
    {
        Ids { book, next }
    }

    /// A second counter that stands where this one does. It takes no memory. `AllocError` comes
    /// where the kit's `Arc` refuses one more owner of the book.
    pub fn share(&self) -> Result<Ids, AllocError>
        ensures { IfOk result (λ i. i ≡ self.now) }
    {
        Ok(Ids {
            book: Arc::try_clone(&self.book)?,
            next: self.next,
        })
    }

    /// How many ids are left.
    pub fn left(&self) -> u64
        ensures left { result ≡ 2 ^ 63 - self.now.next }
        ensures within { self.now.next ≤ 2 ^ 63 }
    {
        END - self.next
    }

    /// The next id, which a new cell would get.
    pub fn next(&self) -> u64
        ensures { result ≡ self.now.next }
    {
        self.next
    }

    /// A new cell with the next id, which hasn't fired. It takes memory for the cell, and is
    /// refused only for want of it.
    pub fn draw(&mut self, alloc: Global, front: &Front) -> Result<Arc<WatchCell>, AllocError>
        requires book { front.now.book ≡ self.old.book }
        requires left { self.old.next < 2 ^ 63 }

        ensures id { IfOk result (λ c. (arc_value c).id ≡ self.old.next) }
        ensures book { IfOk result (λ c. (arc_value c).book ≡ self.old.book) }
        ensures fired { IfOk result (λ c. has_fired (arc_value c) front.now ≡ false) }
        ensures next { OnOk result (self.new.next ≡ self.old.next + 1) }
        ensures same_book { self.new.book ≡ self.old.book }

        ensures unchanged { OnErr result (self.new ≡ self.old) }
    {
        let cell = open_cell(alloc, &self.book, front, self.next)?;
        self.next += 1;
        Ok(cell)
    }
}
