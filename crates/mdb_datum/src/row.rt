//! Rows: shared objects.
ghost use Rattle.std.specs.Prelude.{◌≡◌, ◌++◌, Decides, IfOk, OnErr, OnOk, option_map};
ghost use Rattle.mdb_datum.specs.Datum.{doc_of};
ghost use Rattle.mdb_datum.specs.Doc.{object, field_list, member};
ghost use Rattle.mdb_datum.specs.Reading.{reading, read_as};
ghost use Rattle.mdb_datum.specs.Row.{IsCanonicalRow};
ghost use Rattle.mdb_datum.specs.Written.{row_text};

use crate::same::has_same_members;
use crate::write::{append_members, write_members};
use crate::{Datum, Members};
use std::alloc::{AllocError, Global};
use std::marker::Model;
use std::sync::Arc;

/// An object that is shared and never changes, seen as its members. It is canonical, since they are.
#[derive(Drop)]
pub struct Row {
    members: Arc<Members, Global>,
}

impl Model for Row {
    ghost use Rattle.mdb_datum.specs.Row.{Fields};
    ghost use Rattle.mdb_datum.specs.Codes.{fields_code};

    ghost Value = { Fields };

    ghost coded = { fields_code };

    ghost use Rattle.mdb_datum.specs.inner.RowView.{row_members};

    ghost view = { row_members };
}

impl Row {
    /// A row with these members.
    pub fn of(alloc: Global, members: Members) -> Result<Row, AllocError>
        ensures { IfOk result (λ r. r ≡ members) }
    {
        Ok(Row {
            members: Arc::new(alloc, members)?,
        })
    }

    /// The members.
    pub fn members(&self) -> &Members
        ensures members { result.now ≡ self.now }
        ensures canonical { IsCanonicalRow self.now }
    {
        let members: &Members = &self.members;
        let _canonical = &members.pairs;
        members
    }

    /// A second owner of the same row. It takes no memory. `AllocError` comes where the kit's `Arc`
    /// refuses one more owner.
    pub fn share(&self) -> Result<Row, AllocError>
        ensures { IfOk result (λ r. r ≡ self.now) }
    {
        Ok(Row {
            members: Arc::try_clone(&self.members)?,
        })
    }

    /// The compact text of the row's object. It takes memory for the text.
    pub fn doc(&self) -> Result<Vec<u8>, AllocError>
        ensures text { IfOk result (λ v. v.items ≡ row_text self.now) }
        ensures reads_back { IfOk result (λ v.
            reading v.items ≡ read_as (object (field_list self.now))) }
    {
        write_members(&self.members)
    }

    /// Adds the compact text of the row's object at the end of `out`. It takes memory where `out`
    /// has no room for the text. After `AllocError` the bytes are as before.
    pub fn append_doc(&self, out: &mut Vec<u8>) -> Result<(), AllocError>
        ensures ok { OnOk result (out.new.items ≡ out.old.items ++ row_text self.now) }
        ensures err { OnErr result (out.new.items ≡ out.old.items) }
    {
        append_members(&self.members, out)
    }

    /// The value under a name. It takes time in the logarithm of the number of members.
    pub fn get(&self, name: &str) -> Option<&Datum>
        ensures { option_map (λ d. doc_of d.now) result ≡ member name.now self.now }
    {
        self.members.get(name)
    }

    /// Whether two rows have the same members. It takes no memory, and at most time in proportion
    /// to the rows' texts: it stops at the first difference.
    pub fn has_same_members(&self, other: &Row) -> bool
        ensures { Decides result (self.now ≡ other.now) }
    {
        has_same_members(&self.members, &other.members)
    }
}
