//! A question of an index.
ghost use Rattle.std.specs.Prelude.{◌≡◌, IfOk};

use crate::ask::Ask;
use mdb_datum::{Items, Text};
use std::alloc::{AllocError, Global};
use std::marker::Model;
use std::sync::Arc;

/// What a question says.
#[derive(Drop)]
struct Parts {
    ask: Ask,
    table: Text,
    index: Text,
    args: Items,
}

impl Model for Parts {
    ghost use Rattle.mdb_schema.specs.Query.{Query};
    ghost use Rattle.mdb_schema.specs.QueryCodes.{query_code};

    ghost Value = { Query };

    ghost coded = { query_code };

    ghost use Rattle.mdb_schema.specs.inner.QueryView.{parts_view};

    ghost view = { parts_view };
}

/// A question of an index of a table: what is asked, the name of the index as the question writes
/// it, perhaps with `_prefix` at its end, and the arguments. It never changes, and may have several
/// owners.
#[derive(Drop)]
pub struct Query {
    parts: Arc<Parts, Global>,
}

impl Model for Query {
    ghost use Rattle.mdb_schema.specs.Query.{Query};
    ghost use Rattle.mdb_schema.specs.QueryCodes.{query_code};

    ghost Value = { Query };

    ghost coded = { query_code };

    ghost use Rattle.mdb_schema.specs.inner.QueryView.{query_view};

    ghost view = { query_view };
}

impl Query {
    /// A question of these parts. It takes memory for copies of the names, and for the whole.
    pub fn of(
        alloc: Global,
        ask: Ask,
        table: &Text,
        index: &Text,
        args: Items,
    ) -> Result<Query, AllocError>
        ensures { IfOk result (λ q. q ≡ record {
          ask = ask;
          table = table.now;
          index = index.now;
          args = args;
        }) }
    {
        // The names are copied first, so that want of memory for one drops the arguments alone.
        let table = Text::of(alloc, table.as_str())?;
        let index = Text::of(alloc, index.as_str())?;
        Query::from_parts(alloc, ask, table, index, args)
    }

    /// A question of these parts, which it takes over.
    pub fn from_parts(
        alloc: Global,
        ask: Ask,
        table: Text,
        index: Text,
        args: Items,
    ) -> Result<Query, AllocError>
        ensures { IfOk result (λ q. q ≡ record {
          ask = ask;
          table = table;
          index = index;
          args = args;
        }) }
    {
        let parts = Parts {
            ask,
            table,
            index,
            args,
        };
        Ok(Query {
            parts: Arc::new(alloc, parts)?,
        })
    }

    /// A second owner of the same question. It takes no memory. `AllocError` comes where the kit's
    /// `Arc` refuses one more owner.
    pub fn share(&self) -> Result<Query, AllocError>
        ensures { IfOk result (λ q. q ≡ self.now) }
    {
        Ok(Query {
            parts: Arc::try_clone(&self.parts)?,
        })
    }

    /// What is asked.
    pub fn ask(&self) -> Ask
        ensures { result ≡ self.now.ask }
    {
        self.parts.ask
    }

    /// The name of the table.
    pub fn table(&self) -> &Text
        ensures { result.now ≡ self.now.table }
    {
        &self.parts.table
    }

    /// The name of the index, as the question writes it.
    pub fn index(&self) -> &Text
        ensures { result.now ≡ self.now.index }
    {
        &self.parts.index
    }

    /// The arguments.
    pub fn args(&self) -> &Items
        ensures { result.now ≡ self.now.args }
    {
        &self.parts.args
    }
}
