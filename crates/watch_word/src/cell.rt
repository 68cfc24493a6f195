//! Cells, and how they fire.
ghost use Rattle.std.specs.Prelude.{◌≡◌, ◌≤◌, true, false, IfOk};
ghost use Rattle.std.specs.Arc.{arc_value};
ghost use Rattle.watch_word.specs.Logs.{has_fired, AreDistinct, IsLater};

use crate::book::Book;
use crate::front::Front;
use crate::rule::{Add, BookWord, ComeHome, Fire, Look, Nothing, SeenLog, still};
use logbook::Word;
use std::alloc::{AllocError, Global};
use std::marker::Model;
use std::sync::Arc;
use std::sync::atomic::AtomicBool;
use std::sync::atomic::Ordering::SeqCst;

/// A cell that fires once. Contracts see it as its book, its key there and its id.
#[derive(Drop)]
pub struct WatchCell {
    id: u64,
    /// 0 until the cell fires, and then the number of the commit that fired it.
    pub(crate) word: BookWord,
    /// Whether somebody sleeps, or is about to, until it fires. Nothing is claimed of it.
    attended: AtomicBool,
    /// A log that was seen when the word was ready.
    pub(crate) home: SeenLog,
}

impl Model for WatchCell {
    ghost use Rattle.std.specs.Prelude.{◌≡◌, true};
    ghost use Rattle.watch_word.specs.Logs.{Cell};
    ghost use Rattle.std.specs.Prelude.{Some};
    ghost use Rattle.watch_word.specs.inner.Rule.{id_in, is_home, word_at};

    ghost Value = { Cell };

    ghost view = { λ c. record { book = c.word.book; key = c.word.key; id = c.id } };

    ghost invariant = { λ c. (c.word ≡ word_at c.home.book c.word.key)
        × (is_home c.word.key c.home.log ≡ true)
        × (id_in c.word.key c.home.log ≡ Some c.id) };
}

impl WatchCell {
    /// The id that its maker gave it.
    pub fn id(&self) -> u64
        ensures { result ≡ self.now.id }
    {
        self.id
    }

    /// Whether somebody sleeps until it fires. Who fires it asks afterwards, and wakes nobody where
    /// nobody does.
    pub fn is_attended(&self) -> bool {
        self.attended.load(SeqCst)
    }

    /// Says that somebody is about to sleep until it fires. Who says so looks once more before it
    /// sleeps: then either that look finds the cell fired, or who fires it finds this said.
    pub(crate) fn attend(&self) {
        self.attended.store(true, SeqCst);
    }
}

/// A cell that isn't in the log.
fn new_cell(book: &Book, front: &Front, id: u64) -> WatchCell
    requires { front.now.book ≡ book.now }
    ensures id { result.id ≡ id }
    ensures book { result.book ≡ book.now }
    ensures fired { has_fired result front.now ≡ false }
{
    let mut seen = front.seen.again();
    let mut offer = still(&seen, id);
    let mut pen = seen.no_pen();
    book.anchor
        .compare_exchange::<Add, Nothing>(0, 0, &mut seen, &mut offer, &mut pen);
    let word = Word::tracked(0, &mut pen);
    book.anchor
        .compare_exchange::<ComeHome, Nothing>(0, 0, &mut seen, &mut offer, &mut pen);
    WatchCell {
        id,
        word,
        attended: AtomicBool::new(false),
        home: seen,
    }
}

/// A new cell, which hasn't fired: it isn't in the front's log. `AllocError` means want of memory.
pub fn open_cell(
    alloc: Global,
    book: &Book,
    front: &Front,
    id: u64,
) -> Result<Arc<WatchCell>, AllocError>
    requires { front.now.book ≡ book.now }
    ensures id { IfOk result (λ c. (arc_value c).id ≡ id) }
    ensures book { IfOk result (λ c. (arc_value c).book ≡ book.now) }
    ensures fired { IfOk result (λ c. has_fired (arc_value c) front.now ≡ false) }
{
    let cell = new_cell(book, front, id);
    Ok(Arc::new(alloc, cell)?)
}

/// What a look at a watch finds.
#[derive(Drop)]
pub struct Moved {
    /// Whether the cell has fired.
    pub fired: bool,
    /// The log as far as it was seen then, which says the same.
    pub front: Front,
}

/// Fires the cell by the commit with this number, unless it has fired before. The front given back
/// has the cell. It takes no memory and waits for nobody.
pub fn fire(front: &Front, cell: &WatchCell, by: u64) -> Front
    requires book { cell.now.book ≡ front.now.book }
    requires number { 1 ≤ by }
    ensures later { IsLater front.now result }
    ensures fired { has_fired cell.now result ≡ true }
    ensures once { AreDistinct result.fired }
{
    let mut seen = front.seen.again();
    seen.learn(&cell.home);
    let mut offer = still(&seen, 0);
    let mut pen = seen.no_pen();
    cell.word
        .compare_exchange::<Fire, Nothing>(0, by, &mut seen, &mut offer, &mut pen);
    Front { seen }
}

/// Looks whether the cell has fired.
pub(crate) fn look(front: &Front, cell: &WatchCell) -> Moved
    requires { cell.now.book ≡ front.now.book }
    ensures later { IsLater front.now result.front }
    ensures fired { result.fired ≡ has_fired cell.now result.front }
    ensures once { AreDistinct result.front.fired }
{
    let mut seen = front.seen.again();
    seen.learn(&cell.home);
    let mut offer = still(&seen, 0);
    let found = cell.word.load::<Look, Nothing>(&mut seen, &mut offer);
    Moved {
        fired: found != 0,
        front: Front { seen },
    }
}

/// Of two cells of one book, one key is one cell: no word is handed out under two ids.
pub fn one_key_is_one_cell(one: &WatchCell, other: &WatchCell)
    requires { one.now.book ≡ other.now.book }
    ensures { one.now.key ≡ other.now.key → one.now ≡ other.now }
{
    let mut seen = one.home.again();
    seen.learn(&other.home);
}
