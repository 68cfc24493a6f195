//! The words of the command line.
ghost use Rattle.std.specs.Prelude.{IfOk};

use mdb_datum::Text;
use run_io::{Named, may_name_files};
use std::alloc::{AllocError, Global};

mod checked;
mod numbers;
mod parsing;

pub use self::checked::CheckedFiles;
pub use self::numbers::Numbers;
use self::parsing::read_command;

/// What the words ask for.
#[derive(Drop)]
pub enum Command {
    /// `run SCHEMA CLIENT..`: to run the clients' scripts.
    Run(Named),
    /// `make NUMBER CLIENTS COUNT`: to run clients that are made, and to sum up what they leave.
    Make(Numbers),
    /// `check SCHEMA CLIENT.. OUTPUT`: to check whether an output is one history of the clients.
    Check(CheckedFiles),
}

impl Command {
    ghost use Rattle.memdb.specs.inner.CommandOf.{IsCommandOf};

    /// The command that words are: `None` where they are none of `run SCHEMA CLIENT..`, `make NUMBER
    /// CLIENTS COUNT` and `check SCHEMA CLIENT.. OUTPUT`. `clap` reads them, after the test that each
    /// word may name a file: it isn't empty, doesn't begin with `-` and holds no line feed. It takes
    /// memory for the names.
    pub fn of(alloc: Global, words: &[Text]) -> Result<Option<Command>, AllocError>
        ensures { IfOk result (λ command. IsCommandOf words.now command) }
    {
        if !may_name_files(words) {
            return Ok(None);
        }
        read_command(alloc, words)
    }
}
