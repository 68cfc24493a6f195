//! A transaction and a sorted map that are written alike.
use super::written::{Line, Work, has, nodes_are, number_of, row};
use crate::firings::all_fire;
use mdb_datum::Row;
use radix_node::Tree;
use radix_txn::Notice;
use std::alloc::{AllocError, Global};
use std::collections::BTreeMap;
use std::mem;

/// Keys, and the numbers that their rows tell.
pub type Plain = BTreeMap<&'static [u8], i128>;

/// A key with its number.
pub type Pair = (&'static [u8], i128);

/// Whether what was done is right.
pub type Told = Result<bool, AllocError>;

/// A tree that was given, and the map as it was then.
#[derive(Drop)]
pub struct Given {
    pub tree: Tree,
    pub plain: Plain,
}

/// The last tree of a transaction, and its notice.
#[derive(Drop)]
pub struct Ended {
    pub tree: Tree,
    pub notice: Notice,
}

/// A transaction, a map that is written alike, the trees that the transaction gave, of which the
/// first is the one that it began with, and what the transaction before it ended with.
#[derive(Drop)]
pub struct Both {
    alloc: Global,
    pub work: Work,
    pub plain: Plain,
    pub given: Vec<Given>,
    pub ended: Option<Ended>,
}

/// Whether a tree has as many keys as a map, and each with its number.
pub fn is_tree_of(tree: &Tree, plain: &Plain) -> bool {
    if tree.len() != plain.len() as u64 {
        return false;
    }
    for (key, number) in plain {
        if number_of(tree.get(key)) != Some(*number) {
            return false;
        }
    }
    true
}

/// Whether a cell is in the notice exactly where the look-up finds another one now.
fn is_told(notice: &Notice, old: u64, new: u64) -> bool {
    has(notice, old) == (old != new)
}

// Each write is made on both, and tells whether both answered the same. One that is refused counts as
// want of memory, where it left the pairs that were there.
impl Both {
    /// An empty tree and an empty map.
    pub fn new(alloc: Global) -> Result<Both, AllocError> {
        let work = Work::new(alloc)?;
        Ok(Both {
            alloc,
            work,
            plain: BTreeMap::new(alloc),
            given: Vec::new(alloc),
            ended: None,
        })
    }

    /// Where all takes its memory.
    pub fn alloc(&self) -> Global {
        self.alloc
    }

    /// The present tree.
    pub fn tree(&self) -> &Tree {
        self.work.txn().tree()
    }

    /// The sorted keys with their numbers.
    pub fn pairs(&self) -> Result<Vec<Pair>, AllocError> {
        let mut pairs = Vec::new(self.alloc);
        for (key, number) in &self.plain {
            pairs.push((*key, *number))?;
        }
        Ok(pairs)
    }

    /// Whether the tree is that of the map.
    pub fn is_same(&self) -> bool {
        is_tree_of(self.tree(), &self.plain)
    }

    /// Tells of a refused write.
    fn refused(&self) -> Told {
        if self.is_same() {
            Err(AllocError)
        } else {
            Ok(false)
        }
    }

    /// Puts a row under a key.
    pub fn put_row(&mut self, key: &'static [u8], row: &Row) -> Told {
        match self.work.put_row(key, row) {
            Ok(old) => {
                let number = number_of(Some(row)).unwrap_or(-1);
                Ok(old == self.plain.insert(key, number)?)
            }
            Err(_) => self.refused(),
        }
    }

    /// Puts the row of a number under a key.
    pub fn put(&mut self, key: &'static [u8], number: i128) -> Told {
        let row = row(self.alloc, number)?;
        self.put_row(key, &row)
    }

    /// Takes out a key.
    pub fn take(&mut self, key: &[u8]) -> Told {
        match self.work.take(key) {
            Ok(old) => Ok(old == self.plain.remove(key)),
            Err(_) => self.refused(),
        }
    }

    /// Takes out the keys that begin with a prefix.
    pub fn take_all(&mut self, prefix: &[u8]) -> Told {
        match self.work.take_all(prefix) {
            Ok(gone) => {
                let before = self.plain.len();
                self.plain.retain(|key, _| !key.starts_with(prefix));
                Ok(gone == before.saturating_sub(self.plain.len()) as u64)
            }
            Err(_) => self.refused(),
        }
    }

    /// Puts the row of a number under a key, and tells whether that drew ids where that is said.
    pub fn draw(&mut self, key: &'static [u8], drawn: bool) -> Told {
        let left = self.work.left();
        let told = self.put(key, 1)?;
        Ok(told && (self.work.left() < left) == drawn)
    }

    /// Gives a tree that is dropped at once, and tells whether it is that of the map, and draws no
    /// id.
    pub fn glance(&mut self) -> Told {
        let left = self.work.left();
        let tree = self.work.stand()?;
        Ok(self.work.left() == left && is_tree_of(&tree, &self.plain))
    }

    /// The present tree, and the map as it is.
    fn now(&mut self) -> Result<Given, AllocError> {
        let plain = self.plain.clone()?;
        let tree = self.work.stand()?;
        Ok(Given { tree, plain })
    }

    /// Gives a tree.
    pub fn stand(&mut self) -> Told {
        let given = self.now()?;
        self.given.push(given)?;
        Ok(true)
    }

    /// Goes on with a new transaction on the present tree, and gives that tree.
    pub fn begin(&mut self) -> Told {
        drop(self.work.begin()?);
        self.given.clear();
        self.stand()
    }

    /// Ends the transaction. A new one on its tree follows it.
    pub fn follow(&mut self) -> Told {
        let (tree, notice) = self.work.follow()?;
        self.ended = Some(Ended { tree, notice });
        Ok(true)
    }

    /// Ends the transaction, and tells whether all cells of its notice fire. A new one on an empty
    /// tree follows it.
    pub fn end(&mut self) -> Told {
        let work = mem::replace(&mut self.work, Work::new(self.alloc)?);
        self.plain.clear();
        self.end_of(work)
    }

    /// Whether all cells of the notice fire with which a transaction ends.
    fn end_of(&mut self, work: Work) -> Told {
        let (tree, notice, front) = work.freeze()?;
        let fire = all_fire(&notice, &front);
        self.ended = Some(Ended { tree, notice });
        fire
    }

    /// Whether each tree is as it was when it was given.
    pub fn are_kept(&self) -> bool {
        for one in &self.given {
            if !is_tree_of(&one.tree, &one.plain) {
                return false;
            }
        }
        true
    }

    /// The first tree of the transaction that ended last, and what it ended with.
    pub fn last(&self) -> Option<(&Tree, &Ended)> {
        match (self.given.first(), &self.ended) {
            (Some(first), Some(ended)) => Some((&first.tree, ended)),
            _ => None,
        }
    }

    /// Whether both watches of a key are in that one's notice exactly where other cells are found
    /// since, and the key is there if it was, where its watch stays; and which of both moved.
    pub fn moved(&self, key: &[u8]) -> Option<(bool, bool)> {
        let (old, Ended { tree, notice }) = self.last()?;
        let ((was, row), (is, row_now)) = (old.get_watch(key), tree.get_watch(key));
        let (under_was, under_is) = (old.seek_watch(key).id(), tree.seek_watch(key).id());
        let (was, is) = (was.id(), is.id());
        let found = was != is || row.is_some() == row_now.is_some();
        let told = is_told(notice, was, is) && is_told(notice, under_was, under_is);
        (told && found).then_some((was != is, under_was != under_is))
    }

    /// Whether that one's first tree has these nodes.
    pub fn had(&self, nodes: &[Line]) -> bool {
        match self.given.first() {
            Some(first) => nodes_are(&first.tree, nodes),
            None => false,
        }
    }

    /// Whether that one's notice lists so many cells.
    pub fn lists(&self, count: u32) -> bool {
        match &self.ended {
            Some(ended) => ended.notice.listed() == Some(count),
            None => false,
        }
    }
}
