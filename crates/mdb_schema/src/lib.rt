//! Schemas, and the model of a database: what its tables hold, what a write does, what a question
//! is answered.
//!
//! `read_schema` gives a `Schema` with its tables and indexes, or the first rule that a file
//! breaks. A `Schema` is lawful by its type: its tables and indexes stand in byte order of their
//! names, each table has an index `id`, and each index has a well-formed kind. The layers above are
//! stated against the definitions in `specs/`: a schema as plain data, a state, a write step, an
//! answer, a history.
//!
//! Reading takes time and memory in proportion to the file. A schema never changes; a look-up by
//! place takes constant time, and one by name time in the logarithm of the number of names.
#![tactic(auto)]

mod answer;
mod ask;
mod ask_error;
mod error;
mod index_def;
mod indexer;
mod kind_name;
pub mod laws;
mod names;
mod query;
pub mod question;
mod read;
mod rows;
mod schema;
mod schema_rule;
mod shapes;
mod table_def;
mod version;
mod write_error;

pub use answer::Answer;
pub use ask::Ask;
pub use ask_error::AskError;
pub use error::SchemaError;
pub use index_def::IndexDef;
pub use names::{is_name_byte, is_word};
pub use query::Query;
pub use read::read_schema;
pub use rows::Rows;
pub use schema::Schema;
pub use schema_rule::SchemaRule;
pub use table_def::TableDef;
pub use write_error::WriteError;
