//! Writes that are in order, and what is read of a tree.
ghost use Rattle.std.specs.Prelude.{◌≡◌, ◌≤◌, true, false, IfOk, OnOk, length};
ghost use Rattle.radix_node.specs.Cells.{AreBelow, AreCellsOf, AreOf};
ghost use Rattle.radix_txn.specs.Notice.{IsNotice};

use mdb_datum::{Datum, Row, read_doc};
use radix_node::{Edges, Ids, Node, Tree};
use radix_txn::{Edit, Notice, TreeTxn};
use std::alloc::{AllocError, Global};
use std::marker::Model;
use std::mem;
use watch_word::{Front, open_book};

/// The row that a text is. Another text counts as want of memory, which ends a test.
fn row_of(alloc: Global, text: &str) -> Result<Row, AllocError> {
    match read_doc(alloc, text.as_bytes()) {
        Ok(Datum::Members(members)) => Row::of(alloc, members),
        _ => Err(AllocError),
    }
}

/// The row of a number.
pub fn row(alloc: Global, number: i128) -> Result<Row, AllocError> {
    let text = format!(in alloc; "{{\"n\":{number}}}")?;
    row_of(alloc, text.as_str())
}

/// The number that a row tells.
pub fn number_of(row: Option<&Row>) -> Option<i128> {
    match row?.get("n") {
        Some(Datum::Whole(number)) => Some(*number),
        _ => None,
    }
}

// ---- writes, each an error where it would be out of order

/// A transaction, with what its writes draw cells from.
#[derive(Drop)]
pub struct Work {
    alloc: Global,
    txn: TreeTxn,
    front: Front,
    ids: Ids,
}

impl Model for Work {
    ghost use Rattle.std.specs.Prelude.{◌≡◌};
    ghost use Rattle.radix_node.specs.Cells.{AreBelow, AreOf};
    ghost use Rattle.radix_txn.specs.Txn.{Txn};
    ghost use Rattle.radix_txn.specs.Codes.{txn_code};

    ghost Value = { Txn };

    ghost coded = { txn_code };

    ghost view = { λ w. w.txn };

    ghost invariant = { λ w. (w.front.book ≡ w.ids.book)
        × AreBelow w.ids.next w.txn.tree × AreBelow w.ids.next w.txn.start
        × AreOf w.ids.book w.txn.tree × AreOf w.ids.book w.txn.start };
}

impl Work {
    /// A transaction on an empty tree.
    pub fn new(alloc: Global) -> Result<Work, AllocError> {
        let (book, front) = open_book(alloc)?;
        let mut ids = Ids::starting(book, 0);
        let txn = empty_txn(alloc, &front, &mut ids)?;
        Ok(Work {
            alloc,
            txn,
            front,
            ids,
        })
    }

    /// The transaction.
    pub fn txn(&self) -> &TreeTxn
        ensures { result.now ≡ self.now }
    {
        &self.txn
    }

    /// How many ids are left to draw.
    pub fn left(&self) -> u64 {
        self.ids.left()
    }

    /// Whether a write of a key is in order.
    fn is_ready(&self, key: &[u8]) -> bool
        ensures { result ≡ true → (length key.now ≤ 2048) × (self.now.spoiled ≡ false) }
    {
        key.len() <= 2_048 && !self.txn.spoiled()
    }

    /// Puts a row under a key, and gives the number of the old row.
    pub fn put_row(&mut self, key: &[u8], row: &Row) -> Result<Option<i128>, AllocError> {
        if !self.is_ready(key) || self.ids.left() < 4_096 {
            return Err(AllocError);
        }
        let old = self.txn.insert(&self.front, &mut self.ids, key, row)?;
        Ok(number_of(old.as_ref()))
    }

    /// Puts the row of a number under a key.
    pub fn put(&mut self, key: &[u8], number: i128) -> Result<Option<i128>, AllocError> {
        let row = row(self.alloc, number)?;
        self.put_row(key, &row)
    }

    /// Takes out a key, and gives the number of its row.
    pub fn take(&mut self, key: &[u8]) -> Result<Option<i128>, AllocError> {
        if !self.is_ready(key) || self.ids.left() < 4_096 {
            return Err(AllocError);
        }
        let old = self.txn.delete(&self.front, &mut self.ids, key)?;
        Ok(number_of(old.as_ref()))
    }

    /// Takes out the keys that begin with a prefix, and tells how many there were.
    pub fn take_all(&mut self, prefix: &[u8]) -> Result<u64, AllocError>
        ensures start { self.new.start ≡ self.old.start }
    {
        if !self.is_ready(prefix) || self.ids.left() < 4_096 {
            return Err(AllocError);
        }
        self.txn.delete_prefix(&self.front, &mut self.ids, prefix)
    }

    /// The present tree.
    pub fn stand(&mut self) -> Result<Tree, AllocError>
        ensures tree { IfOk result (λ t. t ≡ self.old.tree) }
        ensures unchanged { self.new ≡ self.old }
    {
        if self.txn.spoiled() {
            return Err(AllocError);
        }
        self.txn.stand()
    }

    /// Goes on with a new transaction on the present tree, by the same ids, and gives the tree.
    pub fn begin(&mut self) -> Result<Tree, AllocError>
        ensures { IfOk result (λ t. t ≡ self.new.start) }
    {
        self.txn = next_txn(&mut self.txn)?;
        self.stand()
    }

    /// The present tree and the notice, which end the transaction; a new one on the tree follows it.
    pub fn follow(&mut self) -> Result<(Tree, Notice), AllocError> {
        let next = next_txn(&mut self.txn)?;
        let ended = mem::replace(&mut self.txn, next);
        ended_by(ended)
    }

    /// The present tree and the notice, which end the transaction, and the front of its cells.
    pub fn freeze(self) -> Result<(Tree, Notice, Front), AllocError>
        ensures notice { IfOk result (λ r. AreCellsOf r.2.book r.1) }
        ensures start { IfOk result (λ r. AreOf r.2.book self.start) }
    {
        let Work { txn, front, .. } = self;
        let (tree, notice) = ended_by(txn)?;
        Ok((tree, notice, front))
    }
}

/// A transaction on an empty tree.
fn empty_txn(alloc: Global, front: &Front, ids: &mut Ids) -> Result<TreeTxn, AllocError>
    requires book { front.now.book ≡ ids.old.book }
    requires left { ids.old.next ≡ 0 }
    ensures same_book { ids.new.book ≡ ids.old.book }
    ensures next { OnOk result (ids.new.next ≤ 1) }
    ensures below { IfOk result (λ t. AreBelow ids.new.next t.tree) }
    ensures below_start { IfOk result (λ t. AreBelow ids.new.next t.start) }
    ensures of { IfOk result (λ t. AreOf ids.new.book t.tree) }
    ensures of_start { IfOk result (λ t. AreOf ids.new.book t.start) }
{
    let tree = Tree::empty(alloc, front, ids)?;
    tree.txn()
}

/// A transaction on the present tree of another one.
fn next_txn(txn: &mut TreeTxn) -> Result<TreeTxn, AllocError>
    ensures unchanged { txn.new ≡ txn.old }
    ensures tree { IfOk result (λ t. t.tree ≡ txn.old.tree) }
    ensures start { IfOk result (λ t. t.start ≡ txn.old.tree) }
{
    if txn.spoiled() {
        return Err(AllocError);
    }
    txn.stand()?.txn()
}

/// The tree and the notice that a transaction ends with.
fn ended_by(txn: TreeTxn) -> Result<(Tree, Notice), AllocError>
    ensures { IfOk result (λ r. IsNotice r.1 txn.start txn.tree) }
{
    if txn.spoiled() {
        return Err(AllocError);
    }
    txn.freeze()
}

// ---- trees

/// Whether these are the labels of edges, in their order.
pub fn labels_are(edges: &Edges, labels: &[u8]) -> bool {
    for (edge, label) in edges.iter().zip(labels) {
        if edge.label() != *label {
            return false;
        }
    }
    edges.len() == labels.len()
}

/// Whether a node has this prefix, a leaf where that is said, and edges of these labels.
pub fn is_node(node: &Node, prefix: &[u8], has_leaf: bool, labels: &[u8]) -> bool {
    node.prefix() == prefix && node.leaf().is_some() == has_leaf && labels_are(node.edges(), labels)
}

/// A node of a tree: a path that leads to it, its own prefix, whether it has a leaf, and the labels
/// of its edges.
pub type Line = (&'static [u8], &'static [u8], bool, &'static [u8]);

/// Whether the path of each line leads to its node.
pub fn nodes_are(tree: &Tree, nodes: &[Line]) -> bool {
    for (path, prefix, has_leaf, labels) in nodes {
        match tree.seek(path) {
            Some(node) if is_node(node, prefix, *has_leaf, labels) => {}
            _ => return false,
        }
    }
    true
}

// ---- notices

/// Whether a notice has the cell of an id.
pub fn has(notice: &Notice, id: u64) -> bool {
    for cell in notice.cells() {
        if cell.id() == id {
            return true;
        }
    }
    false
}
