//! The writes of a transaction.
ghost use Rattle.std.specs.Prelude.{◌≡◌, ◌∷◌, ◌+◌, ◌≤◌, ◌^◌, IfNone, IfOk, IfSome, OnErr, OnOk, true};
ghost use Rattle.std.specs.Prelude.{false, if◌then◌else◌, is_err, length};
ghost use Rattle.radix_node.specs.Cells.{AreBelow, AreOf, pieces_of, plain_of, root_of};
ghost use Rattle.radix_node.specs.Nodes.{pairs_of};
ghost use Rattle.radix_node.specs.Pairs.{find, put};
ghost use Rattle.radix_node.specs.Shape.{HasShape};
ghost use Rattle.radix_txn.specs.Drawn.{HasDrawn, IsReady};
ghost use Rattle.radix_txn.specs.Kept.{deleted_key, deleted_keys};
ghost use Rattle.radix_txn.specs.Notice.{IsDrawn};
ghost use Rattle.radix_txn.specs.Txn.{txn_pairs};
ghost use Rattle.radix_txn.specs.Write.{IsDelete, IsDeletePrefix, IsInsert, WritesKeys};
ghost use Rattle.radix_txn.specs.declared.target.Target.TheVariants.{Key};
ghost use Rattle.radix_txn.specs.inner.Outside.{AllIn, outside_node};
ghost use Rattle.radix_txn.specs.inner.Removal.{IsAbsent, IsTaken, TakesNone, kept_pairs, old_row};
ghost use Rattle.radix_txn.specs.inner.Removal.{taken_keys};
ghost use Rattle.radix_txn.specs.inner.Steps.{Ledger, Steps};

use crate::cells::Cells;
use crate::insert::{Put, tree_with};
use crate::remove::{self, Deleted, Taken};
use crate::target::Target;
use crate::txn::{State, TreeTxn};
use mdb_datum::Row;
use radix_node::{Ids, Left, Tree};
use std::alloc::AllocError;
use std::mem;
use watch_word::Front;

impl TreeTxn {
    /// Puts a row under a key, and gives the old row, if there was one. It takes memory for a copy
    /// of each shared node on the key's path and for what is new there, each with a new cell; the
    /// transaction's own nodes are changed in place, and a leaf of its own gets the row. It is
    /// refused only for want of memory, or of room to count one more owner of a node or row; that
    /// spoils the transaction.
    pub fn insert(
        &mut self,
        front: &Front,
        ids: &mut Ids,
        key: &[u8],
        row: &Row,
    ) -> Result<Option<Row>, AllocError>
        requires short { length key.now ≤ 2048 }
        requires ready { IsReady 4096 front.now ids.old self.old }
        ensures put { IfOk result (λ r. IsInsert key.now row.now r self.old self.new) }
        ensures drawn { HasDrawn front.now 4096 ids.old ids.new self.old self.new }
        ensures written { OnOk result (WritesKeys (λ keys. key.now ∷ keys) self.old self.new) }
        ensures unchanged { OnErr result (self.new.tree ≡ self.old.tree) }
        ensures spoiled { self.new.spoiled ≡ is_err result }
    {
        self.put_in(front, ids, key, row)
    }

    /// Takes out a key, and gives the old row; `None`, where the key isn't stored, and then nothing
    /// is copied and no cell is made. Else it takes memory for a copy of each shared node on the
    /// key's path, and for the node that loses its leaf or an edge, each with a new cell; the
    /// transaction's own nodes above it are changed in place. It is refused only for want of memory,
    /// or of room to count one more owner of a node or row; that spoils the transaction.
    pub fn delete(
        &mut self,
        front: &Front,
        ids: &mut Ids,
        key: &[u8],
    ) -> Result<Option<Row>, AllocError>
        requires short { length key.now ≤ 2048 }
        requires ready { IsReady 4096 front.now ids.old self.old }
        ensures taken { IfOk result
            (λ r. IsDelete key.now r ids.old ids.new self.old self.new) }
        ensures drawn { HasDrawn front.now 4096 ids.old ids.new self.old self.new }
        ensures written { IfOk result
            (λ r. WritesKeys (deleted_key key.now r) self.old self.new) }
        ensures unchanged { OnErr result (self.new.tree ≡ self.old.tree) }
        ensures spoiled { self.new.spoiled ≡ is_err result }
    {
        Ok(self.take_out(front, ids, key, Target::Key)?.row)
    }

    /// Takes out the keys that begin with a prefix, and says how many they were; 0, where there is
    /// no such key, and then nothing is copied and no cell is made. Else it takes memory as
    /// [`TreeTxn::delete`] does, on the prefix's path, and is refused as that is. It takes time in
    /// the number of keys that go.
    pub fn delete_prefix(
        &mut self,
        front: &Front,
        ids: &mut Ids,
        prefix: &[u8],
    ) -> Result<u64, AllocError>
        requires short { length prefix.now ≤ 2048 }
        requires ready { IsReady 4096 front.now ids.old self.old }
        ensures taken { IfOk result
            (λ n. IsDeletePrefix prefix.now n ids.old ids.new self.old self.new) }
        ensures drawn { HasDrawn front.now 4096 ids.old ids.new self.old self.new }
        ensures written { OnOk result
            (WritesKeys (deleted_keys prefix.now (txn_pairs self.old)) self.old self.new) }
        ensures unchanged { OnErr result (self.new.tree ≡ self.old.tree) }
        ensures spoiled { self.new.spoiled ≡ is_err result }
    {
        Ok(self.take_out(front, ids, prefix, Target::Prefix)?.count)
    }

    /// Puts a row under a key, and gives the old row.
    fn put_in(
        &mut self,
        front: &Front,
        ids: &mut Ids,
        key: &[u8],
        row: &Row,
    ) -> Result<Option<Row>, AllocError>
        requires short { length key.now ≤ 2048 }
        requires ready { IsReady 4096 front.now ids.old self.old }

        ensures pairs { OnOk result
            (txn_pairs self.new ≡ put key.now row.now (txn_pairs self.old)) }
        ensures old { IfOk result (λ r. r ≡ find key.now (txn_pairs self.old)) }
        ensures start { self.new.start ≡ self.old.start }
        ensures below { AreBelow ids.new.next self.new.tree }
        ensures of { AreOf ids.new.book self.new.tree }
        ensures drawn { IsDrawn front.now ids.old ids.new self.old.tree self.new.tree }
        ensures below_start { AreBelow ids.new.next self.new.start }
        ensures ids { (ids.old.next ≤ ids.new.next) × (ids.new.next ≤ ids.old.next + 4096) }
        ensures book { ids.new.book ≡ ids.old.book }

        ensures written { OnOk result (WritesKeys (λ keys. key.now ∷ keys) self.old self.new) }

        ensures unchanged { OnErr result (self.new.tree ≡ self.old.tree) }
        ensures spoiled { self.new.spoiled ≡ is_err result }
    {
        self.spoiled = true;
        let cells = begin(&self.start, &mut self.state, front, ids)?;
        let old = put_with(&self.start, &mut self.state, ids, key, row, cells)?;
        self.spoiled = false;
        Ok(old)
    }

    /// Takes out the keys of a target.
    fn take_out(
        &mut self,
        front: &Front,
        ids: &mut Ids,
        key: &[u8],
        target: Target,
    ) -> Result<Deleted, AllocError>
        requires short { length key.now ≤ 2048 }
        requires ready { IsReady 4096 front.now ids.old self.old }

        ensures pairs { OnOk result
            (txn_pairs self.new ≡ kept_pairs target key.now (txn_pairs self.old)) }
        ensures old { IfOk result (λ d. d.row ≡ old_row target key.now (txn_pairs self.old)) }
        ensures count { IfOk result
            (λ d. d.count + length (txn_pairs self.new) ≡ length (txn_pairs self.old)) }
        ensures missing { IfOk result (λ d. TakesNone target d.row d.count
            → (self.new ≡ self.old) × (ids.new ≡ ids.old)) }
        ensures start { self.new.start ≡ self.old.start }
        ensures below { AreBelow ids.new.next self.new.tree }
        ensures of { AreOf ids.new.book self.new.tree }
        ensures drawn { IsDrawn front.now ids.old ids.new self.old.tree self.new.tree }
        ensures below_start { AreBelow ids.new.next self.new.start }
        ensures ids { (ids.old.next ≤ ids.new.next) × (ids.new.next ≤ ids.old.next + 4096) }
        ensures book { ids.new.book ≡ ids.old.book }

        ensures written { OnOk result
            (WritesKeys (taken_keys target key.now (txn_pairs self.old)) self.old self.new) }

        ensures unchanged { OnErr result (self.new.tree ≡ self.old.tree) }
        ensures spoiled { self.new.spoiled ≡ is_err result }
    {
        self.spoiled = true;
        let cells = begin(&self.start, &mut self.state, front, ids)?;
        let taken = take_with(&self.start, &mut self.state, ids, key, target, cells)?;
        let Some(deleted) = taken else {
            self.spoiled = false;
            return Ok(Deleted {
                row: None,
                count: 0,
            });
        };
        self.spoiled = false;
        Ok(deleted)
    }
}

/// Where a write gets its cells, and what has become of the first tree's so far.
fn begin(start: &Tree, state: &mut State, front: &Front, ids: &Ids) -> Result<Cells, AllocError>
    requires book { front.now.book ≡ ids.now.book }
    requires begun { state.old.changed ≡ true → state.old.first ≤ ids.now.next }
    ensures tree { state.new.tree ≡ state.old.tree }
    ensures changed { state.new.changed ≡ state.old.changed }
    ensures first { state.new.first ≡ state.old.first }
    ensures ledger { IfOk result (λ c. c ≡ record {
      log = front.now;
      first = if state.old.changed then state.old.first else ids.now.next;
      next = ids.now.next;
      left = state.old.left;
    }) }
    ensures shape { HasShape (plain_of start.now) }
{
    // Brings the first tree's shape into the proof of what is kept.
    let _ = start.root();
    let front = front.share();
    let ids = ids.share()?;
    let next = ids.next();
    let first = if state.changed { state.first } else { next };
    let alloc = state.tree.root().edges().allocator();
    let left = mem::replace(&mut state.left, Left::new(alloc));
    Ok(Cells {
        front,
        ids,
        first,
        mark: own_from(state.mark, first, next),
        left,
    })
}

/// From which id on nodes are the transaction's own.
fn own_from(mark: Option<u64>, first: u64, next: u64) -> u64
    requires { first ≤ next }
    ensures { first ≤ result }
{
    match mark {
        None => next,
        Some(mark) if first <= mark => mark,
        Some(_) => first,
    }
}

/// Puts a row under a key with new cells, and gives the old row.
fn put_with(
    start: &Tree,
    state: &mut State,
    ids: &mut Ids,
    key: &[u8],
    row: &Row,
    cells: Cells,
) -> Result<Option<Row>, AllocError>
    requires left { cells.next + length key.now + 3 ≤ 2 ^ 63 }
    requires below { AreBelow cells.next state.old.tree }

    ensures pairs { OnOk result (pairs_of (plain_of state.new.tree)
        ≡ put key.now row.now (pairs_of (plain_of state.old.tree))) }
    ensures old { IfOk result (λ r. r ≡ find key.now (pairs_of (plain_of state.old.tree))) }

    ensures cells { let drawn : Ledger = record {
      log = cells.log;
      first = state.new.first;
      next = ids.new.next;
      left = state.new.left;
    } in
        OnOk result (Steps (pieces_of state.old.tree) cells (pieces_of state.new.tree) drawn) }
    ensures fresh { OnOk result (cells.first ≤ state.new.tree.cell.id) }
    ensures stays { OnOk result (AllIn
        (outside_node Key key.now (root_of state.old.tree)) (pieces_of state.new.tree)) }
    ensures shapes { OnOk result
        (HasShape (plain_of state.old.tree) × HasShape (plain_of state.new.tree)) }
    ensures few { OnOk result (ids.new.next ≤ cells.next + length key.now + 3) }
    ensures first { OnOk result (state.new.first ≡ cells.first) }
    ensures changed { OnOk result (state.new.changed ≡ true) }
    ensures book { OnOk result (ids.new.book ≡ cells.log.book) }

    ensures tree { OnErr result (state.new.tree ≡ state.old.tree) }
    ensures ids { OnErr result (ids.new ≡ ids.old) }
{
    let mut cells = cells;
    // The first tree stands in for the present one, which is changed by its only owner.
    let tree = mem::replace(&mut state.tree, start.share()?);
    let Put { tree, old } = tree_with(tree, key, row, &mut cells);
    match old {
        Ok(old) => {
            settle(state, ids, tree, cells);
            Ok(old)
        }
        Err(e) => {
            state.tree = tree;
            Err(e)
        }
    }
}

/// Takes out the keys of a target with new cells, if there are any.
fn take_with(
    start: &Tree,
    state: &mut State,
    ids: &mut Ids,
    key: &[u8],
    target: Target,
    cells: Cells,
) -> Result<Option<Deleted>, AllocError>
    requires left { cells.next + length key.now + 1 ≤ 2 ^ 63 }
    requires below { AreBelow cells.next state.old.tree }

    ensures taken { IfOk result (λ o. IfSome o (λ d. IsTaken target key.now
        (pairs_of (plain_of state.old.tree)) (pairs_of (plain_of state.new.tree))
        d.row d.count)) }
    ensures cells { let drawn : Ledger = record {
      log = cells.log;
      first = state.new.first;
      next = ids.new.next;
      left = state.new.left;
    } in
        IfOk result (λ o. IfSome o (λ d.
        Steps (pieces_of state.old.tree) cells (pieces_of state.new.tree) drawn)) }
    ensures fresh { IfOk result (λ o. IfSome o (λ d. cells.first ≤ state.new.tree.cell.id)) }
    ensures stays { IfOk result (λ o. IfSome o (λ d. AllIn
        (outside_node target key.now (root_of state.old.tree)) (pieces_of state.new.tree))) }
    ensures shapes { IfOk result (λ o. IfSome o (λ d. HasShape (plain_of state.old.tree)
        × HasShape (plain_of state.new.tree))) }
    ensures few { IfOk result (λ o. IfSome o (λ d.
        ids.new.next ≤ cells.next + length key.now + 1)) }
    ensures began { IfOk result (λ o. IfSome o (λ d. state.new.first ≡ cells.first)) }
    ensures changed { IfOk result (λ o. IfSome o (λ d. state.new.changed ≡ true)) }
    ensures book { IfOk result (λ o. IfSome o (λ d. ids.new.book ≡ cells.log.book)) }

    ensures absent { IfOk result
        (λ o. IfNone o (IsAbsent target key.now (pairs_of (plain_of state.old.tree)))) }
    ensures still { IfOk result (λ o. IfNone o (state.new.changed ≡ state.old.changed)) }
    ensures first { IfOk result (λ o. IfNone o (state.new.first ≡ state.old.first)) }
    ensures gone { IfOk result
        (λ o. IfNone o (state.new.left ≡ cells.left)) }
    ensures ids { IfOk result (λ o. IfNone o (ids.new ≡ ids.old)) }
    ensures same { IfOk result (λ o. IfNone o (state.new.tree ≡ state.old.tree)) }

    ensures tree { OnErr result (state.new.tree ≡ state.old.tree) }
    ensures undrawn { OnErr result (ids.new ≡ ids.old) }
{
    let mut cells = cells;
    // The first tree stands in for the present one, which is changed by its only owner.
    let tree = mem::replace(&mut state.tree, start.share()?);
    let Taken { tree, deleted } = remove::take(tree, key, target, &mut cells);
    match deleted {
        Ok(Some(deleted)) => {
            settle(state, ids, tree, cells);
            Ok(Some(deleted))
        }
        Ok(None) => {
            state.tree = tree;
            restore(state, cells);
            Ok(None)
        }
        Err(e) => {
            state.tree = tree;
            Err(e)
        }
    }
}

/// What a write that changes nothing leaves.
fn restore(state: &mut State, cells: Cells)
    ensures tree { state.new.tree ≡ state.old.tree }
    ensures changed { state.new.changed ≡ state.old.changed }
    ensures first { state.new.first ≡ state.old.first }
    ensures left { state.new.left ≡ cells.left }
{
    let Cells { left, .. } = cells;
    state.left = left;
}

/// What a write leaves.
fn settle(state: &mut State, ids: &mut Ids, tree: Tree, cells: Cells)
    ensures tree { state.new.tree ≡ tree }
    ensures changed { state.new.changed ≡ true }
    ensures first { state.new.first ≡ cells.first }
    ensures left { state.new.left ≡ cells.left }
    ensures ids { ids.new ≡ record { book = cells.log.book; next = cells.next } }
{
    let Cells {
        front: _,
        ids: drawn,
        first,
        mark,
        left,
    } = cells;
    *ids = drawn;
    state.tree = tree;
    state.changed = true;
    state.first = first;
    state.mark = Some(mark);
    state.left = left;
}
