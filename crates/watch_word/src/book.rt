//! The book of the cells.
ghost use Rattle.std.specs.Prelude.{◌≡◌, [], IfOk};
ghost use Rattle.std.specs.Arc.{arc_value};

use crate::front::Front;
use crate::rule::BookWord;
use logbook::{Seen, Start, Word};
use std::alloc::{AllocError, Global};
use std::marker::Model;
use std::sync::Arc;

/// The book of a database's cells: one word, on which new cells are made. Contracts see which book
/// it is.
#[derive(Drop)]
pub struct Book {
    pub(crate) anchor: BookWord,
}

impl Model for Book {
    ghost use Rattle.std.specs.Prelude.{◌≡◌};
    ghost use Rattle.logbook.specs.Pages.{Book as BookToken};
    ghost use Rattle.watch_word.specs.inner.Rule.{word_at};

    ghost Value = { BookToken };

    ghost view = { λ b. b.anchor.book };

    ghost invariant = { λ b. b.anchor ≡ word_at b.anchor.book 0 };
}

/// A new book, whose log is empty. `AllocError` means want of memory.
#[tactic(auto, using(crate::proofs::Steps::opens))]
pub fn open_book(alloc: Global) -> Result<(Arc<Book>, Front), AllocError>
    ensures book { IfOk result (λ t. t.1.book ≡ arc_value t.0) }
    ensures empty { IfOk result (λ t. t.1.fired ≡ []) }
{
    let (seen, mut pen, _unused) = Seen::open(Start::alone(), 0, 0);
    let anchor = Word::tracked(0, &mut pen);
    let book = Arc::new(alloc, Book { anchor })?;
    Ok((book, Front { seen }))
}
