//! Documents and rows: JSON values whose numbers are whole (RFC 8259), read from texts and written
//! as texts.
//!
//! The layer above may use `read_doc` and `write_doc`, a `DocReader` for many texts, a `Datum` with
//! its lists and objects, and `Row`, an object that is shared between threads and never changes. What
//! was read is in canonical form, and the text of a canonical document reads as that document. Every
//! object that exists is canonical, by its type.
//!
//! Reading and writing take time and memory in proportion to the text. A look-up by place takes
//! constant time. A member of an object is found in the logarithm of their number. Sharing a row
//! takes no memory, and so does comparing two.
#![tactic(auto)]

mod datum;
mod doc_reader;
mod error;
mod plain;
mod read;
mod row;
mod same;
mod text;
mod write;

pub use datum::{Datum, Items, Members};
pub use doc_reader::DocReader;
pub use error::DocError;
pub use read::read_doc;
pub use row::Row;
pub use text::Text;
pub use write::write_doc;
