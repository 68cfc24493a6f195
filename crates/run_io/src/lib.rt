//! Loading and writing: a schema and client scripts from files, a text to a sink, and what is told of
//! files that are refused.
//!
//! `load` reads the schema's file and then the clients' files in order, each whole, and only then
//! reads them as a schema and scripts, the scripts side by side on threads of their own. Its
//! contract says when each answer comes: a file that can't be read, a file past the limit, a schema
//! or a script that breaks a rule. `Named` has the names of the files, by the words of a command,
//! and `refusal_of` the status and the text of each such error. `load_output` reads the file of an
//! output, and `output_refusal` tells why it can't. `write_all` writes a text in as many calls as
//! the sink wants.
//!
//! Loading takes time and memory in proportion to the files. A file is fetched by pieces of 65,536
//! bytes, and none is kept past its limit: 1,048,576 bytes, or 16,777,216 of an output.
#![tactic(auto)]

mod arguments;
mod contents;
mod file;
mod files;
mod inputs;
mod load_error;
mod loading;
mod named;
mod output;
mod output_error;
mod reading;
mod refusal;
mod texts;
mod write;

pub use arguments::words_of;
pub use inputs::Inputs;
pub use load_error::LoadError;
pub use loading::{load, load_output};
pub use named::{Named, may_name_files};
pub use output::{Output, end_line, write_number};
pub use output_error::OutputError;
pub use refusal::{output_refusal, refusal_of};
pub use texts::Texts;
pub use write::write_all;
