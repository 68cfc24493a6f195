//! Runs of drawn writes on a tree and on a sorted map, and what is asked of the trees then. Each
//! transaction gives trees, which stay as they were. Its notice has the cells of its first tree that
//! aren't in its last one, told by their ids, and the watches of some keys are in it exactly where
//! other cells are found then.
ghost use Rattle.std.specs.Prelude.{◌<◌};

use super::both::{Both, Ended, Told};
use crate::ending::holds;
use crate::walks::{are_asked, are_asked_around};
use radix_node::{Left, Tree};
use rand_core::{Rng, SeedableRng};
use rand_xoshiro::Xoshiro256PlusPlus;
use std::alloc::{AllocError, Global};
use std::collections::BTreeSet;
use std::sync::Arc;
use std::test::Fail;
use watch_word::WatchCell;

type Ids = BTreeSet<u64>;

/// Has each text of four of these letters once. Drawn keys are parts of it, so that they come again
/// and begin with each other.
static TEXT: [u8; 256] =
    *b"\0\0\0\0a\0\0\0b\0\0\0\xff\0\0aa\0\0ab\0\0a\xff\0\0ba\0\0bb\0\0b\xff\0\0\xffa\0\0\xffb\0\
    \0\xff\xff\0a\0a\0b\0a\0\xff\0aaa\0aab\0aa\xff\0aba\0abb\0ab\xff\0a\xffa\0a\xffb\0a\xff\
    \xff\0b\0b\0\xff\0baa\0bab\0ba\xff\0bba\0bbb\0bb\xff\0b\xffa\0b\xffb\0b\xff\xff\0\xff\0\
    \xffaa\0\xffab\0\xffa\xff\0\xffba\0\xffbb\0\xffb\xff\0\xff\xffa\0\xff\xffb\0\xff\xff\xff\
    aaaabaaa\xffaabbaab\xffaa\xffbaa\xff\xffababa\xffabbbabb\xffab\xffbab\xff\xffa\xffa\xffb\
    ba\xffb\xffa\xff\xffba\xff\xff\xffbbbb\xffbb\xff\xffb\xffb\xff\xff\xff\xff";

/// The words of other runs, and the keys whose watches are told in all.
static KEYS: [&[u8]; 16] = [
    b"", b"a", b"b", b"ab", b"aba", b"abab", b"abb", b"abba", b"b\0", b"ba", b"bab", b"baba\0",
    b"cabbage", b"cab", b"c", b"abacus",
];

/// What a run is.
struct Run {
    /// How many transactions it has, each on the tree of the one before.
    transactions: u64,
    /// In how many parts, each of which begins with a tree that is given.
    parts: u64,
    /// How many writes are in a part.
    writes: u64,
    /// Whether one write in twenty takes out all keys that begin with another, and all is compared
    /// after each.
    rough: bool,
    /// The most letters of a key, or none for the words.
    most: u8,
    /// How many drawn keys are asked for after each part.
    asks: u64,
    /// Whether each key of each last tree is asked for, one before it and the first after it.
    around: bool,
}

/// Drawn numbers, the same in each run.
#[derive(Drop)]
struct Random(Xoshiro256PlusPlus);

impl Random {
    /// A number below a bound.
    fn below(&mut self, bound: u64) -> u64
        requires { 0 < bound }
        ensures { result < bound }
    {
        self.0.next_u64() % bound
    }

    /// A key of up to so many letters, six at most, or a word.
    fn key(&mut self, most: u8) -> &'static [u8] {
        if most == 0 {
            return KEYS[self.below(16) as usize];
        }
        let len = self.below(7) as usize;
        let at = self.below(250) as usize;
        let len = if len < usize::from(most) {
            len
        } else {
            usize::from(most)
        };
        TEXT.get(at..at + len).unwrap_or(b"")
    }
}

/// Makes a write that is drawn. Of two thousand, one takes out the keys that begin with a prefix of
/// any length, and thirty those that begin with one of three letters or more; but of `rough` ones
/// one in twenty takes out the keys that begin with any prefix.
fn write(random: &mut Random, both: &mut Both, number: u64, run: &Run) -> Told {
    let kind = if run.rough {
        random.below(20) * 100
    } else {
        random.below(2_000)
    };
    let key = random.key(run.most);
    match kind {
        0 => both.take_all(key),
        1..=30 if key.len() > 2 => both.take_all(key),
        31..=700 => both.take(key),
        _ => both.put(key, i128::from(number)),
    }
}

/// Makes the writes of a part, and tells whether each is told alike, and each rough one leaves the
/// same.
fn write_many(random: &mut Random, both: &mut Both, run: &Run) -> Told {
    for number in 0..run.writes {
        if !write(random, both, number, run)? || run.rough && !both.is_same() {
            return Ok(false);
        }
    }
    Ok(true)
}

/// Whether drawn keys are asked for as of the map.
fn ask_many(random: &mut Random, both: &Both, run: &Run) -> Told {
    for _ in 0..run.asks {
        if !are_asked(both, &[random.key(run.most)])? {
            return Ok(false);
        }
    }
    Ok(true)
}

/// Gives a tree, and makes writes then; tells whether all is as in the map.
fn part(random: &mut Random, both: &mut Both, run: &Run) -> Told {
    Ok(
        both.stand()?
            && write_many(random, both, run)?
            && both.is_same()
            && ask_many(random, both, run)?,
    )
}

/// The cells of a tree.
fn cells_of(alloc: Global, tree: &Tree) -> Result<Left, AllocError> {
    let mut cells = Left::new(alloc);
    tree.root().push_cells(u64::MAX, &mut cells)?;
    Ok(cells)
}

/// Adds the ids of cells to a set, and tells whether none was there before.
fn add_ids(cells: &[Arc<WatchCell>], into: &mut Ids) -> Told {
    for cell in cells {
        if !into.insert(cell.id())? {
            return Ok(false);
        }
    }
    Ok(true)
}

/// Takes the ids of cells out of a set, and tells how many were there.
fn take_ids(cells: &[Arc<WatchCell>], from: &mut Ids) -> usize {
    let mut count = 0usize;
    for cell in cells {
        count = count.wrapping_add(usize::from(from.remove(&cell.id())));
    }
    count
}

/// Whether cells of a notice are just those of an old list that aren't in a new one, each once.
fn is_difference(
    notice: &[Arc<WatchCell>],
    old: &[Arc<WatchCell>],
    new: &[Arc<WatchCell>],
    ids: &mut Ids,
) -> Told {
    let each_once = add_ids(old, ids)?;
    let _ = take_ids(new, ids);
    Ok(each_once && !old.is_empty() && take_ids(notice, ids) == notice.len() && ids.is_empty())
}

/// Whether a notice has just the cells of a tree that aren't in the last one. It lists them here.
fn tells_what_left(alloc: Global, old: &Tree, ended: &Ended) -> Told {
    let (old, new) = (cells_of(alloc, old)?, cells_of(alloc, &ended.tree)?);
    let mut ids = BTreeSet::new(alloc);
    let told = is_difference(ended.notice.cells(), old.listed(), new.listed(), &mut ids)?;
    Ok(told && ended.notice.listed().is_some())
}

/// Whether the watches of all words are told so.
fn are_moved(both: &Both) -> bool {
    for key in &KEYS {
        if both.moved(key).is_none() {
            return false;
        }
    }
    true
}

/// Whether a transaction that ended left its trees as they were, and its notice tells all.
fn is_told(both: &Both) -> Told {
    match both.last() {
        Some((old, ended)) if both.are_kept() && are_moved(both) => {
            tells_what_left(both.alloc(), old, ended)
        }
        _ => Ok(false),
    }
}

/// Makes a transaction, and tells whether all is as in the map and as its notice says.
fn transaction(random: &mut Random, both: &mut Both, run: &Run) -> Told {
    both.given.clear();
    for _ in 0..run.parts {
        if !part(random, both, run)? {
            return Ok(false);
        }
    }
    Ok(both.follow()? && is_told(both)? && (!run.around || are_asked_around(both)?))
}

/// The same of all transactions of a run.
fn is_right(alloc: Global, run: &Run) -> Told {
    let mut random = Random(Xoshiro256PlusPlus::seed_from_u64(1));
    let mut both = Both::new(alloc)?;
    for _ in 0..run.transactions {
        if !transaction(&mut random, &mut both, run)? {
            return Ok(false);
        }
    }
    Ok(true)
}

static ROUGH: Run = Run {
    transactions: 1,
    parts: 1,
    writes: 1_000,
    rough: true,
    most: 6,
    asks: 50,
    around: false,
};

#[test]
fn a_long_run_of_writes_is_as_on_a_sorted_map(rt: HostRuntime) -> Result<(), Fail> {
    holds(is_right(rt.alloc(), &ROUGH))
}

static TWENTY: Run = Run {
    transactions: 20,
    parts: 4,
    writes: 250,
    rough: false,
    most: 6,
    asks: 4,
    around: false,
};

#[test]
fn twenty_transactions_are_as_on_a_sorted_map(rt: HostRuntime) -> Result<(), Fail> {
    holds(is_right(rt.alloc(), &TWENTY))
}

static WATCHED: Run = Run {
    transactions: 4_000,
    parts: 1,
    writes: 3,
    rough: true,
    most: 0,
    asks: 0,
    around: false,
};

#[test]
fn no_watch_is_lost_in_a_long_run(rt: HostRuntime) -> Result<(), Fail> {
    holds(is_right(rt.alloc(), &WATCHED))
}

static SMALL: Run = Run {
    transactions: 200,
    parts: 1,
    writes: 4,
    rough: true,
    most: 2,
    asks: 0,
    around: true,
};

#[test]
fn bounds_hold_at_before_and_after_each_key_of_200_small_trees(
    rt: HostRuntime,
) -> Result<(), Fail> {
    holds(is_right(rt.alloc(), &SMALL))
}

static MIDDLE: Run = Run {
    transactions: 20,
    parts: 1,
    writes: 16,
    rough: true,
    most: 5,
    asks: 0,
    around: true,
};

#[test]
fn bounds_hold_at_before_and_after_each_key_of_drawn_trees(rt: HostRuntime) -> Result<(), Fail> {
    holds(is_right(rt.alloc(), &MIDDLE))
}

static LARGE: Run = Run {
    transactions: 1,
    parts: 1,
    writes: 300,
    rough: false,
    most: 5,
    asks: 500,
    around: false,
};

#[test]
fn four_thousand_questions_are_answered_as_by_the_sorted_keys(rt: HostRuntime) -> Result<(), Fail> {
    holds(is_right(rt.alloc(), &LARGE))
}
