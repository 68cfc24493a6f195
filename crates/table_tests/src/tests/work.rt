//! Tables and changes with what their writes draw cells from.
ghost use Rattle.std.specs.Prelude.{◌≡◌, ◌+◌, ◌≤◌, ◌^◌, IfOk};

use mdb_datum::Row;
use mdb_schema::{Answer, AskError, Query, Rows, TableDef, WriteError};
use radix_iter::Walk;
use radix_node::Ids;
use std::alloc::{AllocError, Global};
use std::marker::Model;
use table_index::table_laws::rows_are_held;
use table_index::{NetList, Notices, Table, TableTxn, WipeError};
use watch_word::{Front, open_book};

/// A table, and what the schema says of it.
#[derive(Drop)]
pub struct Base {
    def: TableDef,
    table: Table,
    front: Front,
    ids: Ids,
}

impl Model for Base {
    ghost use Rattle.std.specs.Prelude.{◌≡◌};
    ghost use Rattle.table_index.specs.Table.{AreAllBelow, AreAllOf, TableRows};
    ghost use Rattle.table_index.specs.Codes.{table_rows_code};

    ghost Value = { TableRows };

    ghost coded = { table_rows_code };

    ghost view = { λ b. b.table };

    ghost invariant = { λ b. (b.front.book ≡ b.ids.book)
        × AreAllBelow b.ids.next b.table.trees × AreAllOf b.ids.book b.table.trees };
}

impl Base {
    /// A table without rows, whose ids begin with 0.
    pub fn empty(alloc: Global, def: &TableDef) -> Result<Base, AllocError> {
        Base::from_id(alloc, def, 0)
    }

    /// A table without rows, whose ids begin here.
    pub fn from_id(alloc: Global, def: &TableDef, next: u64) -> Result<Base, AllocError>
        requires { next + 32 ≤ 2 ^ 63 }
    {
        let (book, front) = open_book(alloc)?;
        let mut ids = Ids::starting(book, next);
        let table = Table::empty(alloc, def, &front, &mut ids)?;
        Ok(Base {
            def: def.share()?,
            table,
            front,
            ids,
        })
    }

    /// The table alone.
    pub fn table(&self) -> &Table
        ensures { result.now ≡ self.now }
    {
        &self.table
    }

    /// The answer to a question.
    pub fn ask(&self, query: &Query) -> Result<Answer, AskError> {
        self.table.ask(query)
    }

    /// A walk over the rows of the answer to a question.
    pub fn walk(&self, query: &Query) -> Result<Walk<'_>, AskError> {
        self.table.walk(query)
    }

    /// A change of the table.
    pub fn txn(&self) -> Result<Work, AllocError>
        ensures schema { IfOk result (λ w. w.schema ≡ self.now.schema) }
        ensures start { IfOk result (λ w. w.start ≡ self.now.trees) }
    {
        Ok(Work {
            def: self.def.share()?,
            txn: self.table.txn()?,
            front: self.front.share(),
            ids: self.ids.share()?,
        })
    }
}

/// A change. A call on one that is spoiled finds no memory.
#[derive(Drop)]
pub struct Work {
    def: TableDef,
    txn: TableTxn,
    front: Front,
    ids: Ids,
}

impl Model for Work {
    ghost use Rattle.std.specs.Prelude.{◌≡◌};
    ghost use Rattle.table_index.specs.Table.{AreAllBelow, AreAllOf, TableChange};
    ghost use Rattle.table_index.specs.Codes.{table_change_code};

    ghost Value = { TableChange };

    ghost coded = { table_change_code };

    ghost view = { λ w. w.txn };

    ghost invariant = { λ w. (w.front.book ≡ w.ids.book)
        × AreAllBelow w.ids.next w.txn.trees × AreAllOf w.ids.book w.txn.trees
        × AreAllBelow w.ids.next w.txn.start };
}

impl Work {
    /// Whether an earlier write found no memory.
    pub fn spoiled(&self) -> bool {
        self.txn.spoiled()
    }

    /// How many ids are left to draw.
    pub fn left(&self) -> u64 {
        self.ids.left()
    }

    /// What the schema says of the table.
    pub fn def(&self) -> &TableDef {
        &self.def
    }

    /// Puts a row in; true where it replaces one.
    pub fn put(&mut self, row: &Row) -> Result<bool, WriteError>
        ensures schema { self.new.schema ≡ self.old.schema }
        ensures start { self.new.start ≡ self.old.start }
    {
        if self.txn.spoiled() {
            return Err(WriteError::Memory);
        }
        self.txn.put(&self.front, &mut self.ids, row)
    }

    /// Takes out the row of another's `id` key.
    pub fn remove(&mut self, row: &Row) -> Result<Row, WriteError>
        ensures schema { self.new.schema ≡ self.old.schema }
        ensures start { self.new.start ≡ self.old.start }
    {
        if self.txn.spoiled() {
            return Err(WriteError::Memory);
        }
        self.txn.remove(&self.front, &mut self.ids, row)
    }

    /// Takes out each row that a question lists, and gives them.
    pub fn take_all(&mut self, query: &Query) -> Result<Rows, WipeError>
        ensures schema { self.new.schema ≡ self.old.schema }
        ensures start { self.new.start ≡ self.old.start }
    {
        if self.txn.spoiled() {
            return Err(WipeError::Memory);
        }
        self.txn.take_all(&self.front, &mut self.ids, query)
    }

    /// The same, where the question names a prefix form.
    pub fn take_prefix(&mut self, query: &Query) -> Result<Rows, WipeError> {
        if self.txn.spoiled() {
            return Err(WipeError::Memory);
        }
        self.txn.take_prefix(&self.front, &mut self.ids, query)
    }

    /// Takes out each row that a question lists, and gives their number.
    pub fn remove_all(&mut self, query: &Query) -> Result<u64, WipeError> {
        if self.txn.spoiled() {
            return Err(WipeError::Memory);
        }
        self.txn.remove_all(&self.front, &mut self.ids, query)
    }

    /// The same, where the question names a prefix form.
    pub fn remove_prefix(&mut self, query: &Query) -> Result<u64, WipeError> {
        if self.txn.spoiled() {
            return Err(WipeError::Memory);
        }
        self.txn.remove_prefix(&self.front, &mut self.ids, query)
    }

    /// The answer to a question.
    pub fn ask(&mut self, query: &Query) -> Result<Answer, AskError> {
        if self.txn.spoiled() {
            return Err(AskError::Memory);
        }
        self.txn.ask(query)
    }

    /// The present table, by the same ids.
    pub fn stand(&mut self) -> Result<Base, AllocError> {
        if self.txn.spoiled() {
            return Err(AllocError);
        }
        Ok(Base {
            def: self.def.share()?,
            table: self.txn.stand()?,
            front: self.front.share(),
            ids: self.ids.share()?,
        })
    }

    /// The table at the end, and its notices.
    pub fn freeze(self) -> Result<(Table, Notices), AllocError> {
        let Work { txn, .. } = self;
        if txn.spoiled() {
            return Err(AllocError);
        }
        txn.freeze()
    }

    /// What the change makes of the table that it began with.
    pub fn net(self, base: &Base) -> Result<NetList, AllocError>
        requires schema { self.schema ≡ base.now.schema }
        requires start { self.start ≡ base.now.trees }
    {
        let Work { txn, .. } = self;
        if txn.spoiled() {
            return Err(AllocError);
        }
        rows_are_held(&base.table);
        let frozen = txn.freeze()?;
        base.table.net(&frozen.0)
    }
}
