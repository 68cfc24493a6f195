//! Client files: the commands of a script, each with the number of its line.
//!
//! [`read_script`] reads the bytes of a file as a [`Script`], or tells the first rule that they
//! break and the line that breaks it. The layer above may use a script's [`Line`]s with their
//! [`Command`]s, and [`Scripts`], a list of scripts that are taken out one after the other. What
//! bytes read as is said by the definitions in `specs/`: lines, words, the grammar, the rules.
//!
//! A line that is carried out may break a [`Rule`] of the session: its names are here too, since
//! whoever carries lines out tells them, and so does whoever checks what was told.
//!
//! Reading takes time in proportion to the file, and memory for the commands. A line without a
//! command takes no memory.
#![tactic(auto)]

mod command;
mod command_word;
mod grammar;
pub mod laws;
mod line;
mod line_error;
mod line_rule;
mod lines;
mod parts;
mod question;
mod read;
mod rule;
mod script;
mod script_error;
mod scripts;
mod word;

pub use command::{
    AskCommand, Command, NameCommand, TransactionCommand, WatchesCommand, WriteCommand,
};
pub use line::Line;
pub use read::read_script;
pub use rule::{Rule, question_name};
pub use script::Script;
pub use script_error::ScriptError;
pub use scripts::Scripts;
