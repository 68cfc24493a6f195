//! The command line, read by `clap`.
ghost use Rattle.std.specs.Prelude.{◌≡◌, ◌++◌, ◌∷◌, [], ◌≤◌, IfOk, OnOk, false, length, map};
ghost use Rattle.std.specs.Prelude.{option_and_then, option_map, true};
ghost use Rattle.std.specs.List.{list_all};
ghost use Rattle.clap.specs.Words.{app_of, found_of, rows_of, rule_of, with_rule};
ghost use Rattle.memdb.specs.Words.{check_behind};
ghost use Rattle.memdb.specs.inner.CommandLine.{AreRead, HasAlso, HasClients, IsLocal, asked_by};
ghost use Rattle.memdb.specs.inner.CommandLine.{asked_of_matches, bare, check_app, check_in};
ghost use Rattle.memdb.specs.inner.CommandLine.{clients_rule, files, files_in, files_rule, make_app};
ghost use Rattle.memdb.specs.inner.CommandLine.{number_at, numbers_in, program, run_app, to_check};
ghost use Rattle.memdb.specs.inner.CommandLine.{to_make, to_run, word_rule};
ghost use Rattle.memdb.specs.inner.CommandOf.{asked_of};
ghost use Rattle.run_io.specs.Named.{may_name_a_file};
ghost use Rattle.run_io.specs.NamedOf.{named_of};

use super::Command;
use super::checked::CheckedFiles;
use super::numbers::{Numbers, number_in};
use clap::error::ErrorKind;
use clap::{Arg, ArgMatches};
use mdb_datum::Text;
use run_io::{Named, Texts};
use std::alloc::{AllocError, Global};

/// The command that words are, where each may name a file.
pub fn read_command(alloc: Global, words: &[Text]) -> Result<Option<Command>, AllocError>
    requires plain { list_all may_name_a_file words.now ≡ true }
    ensures { IfOk result (λ r. option_map asked_of r ≡ asked_by words.now) }
{
    let texts = texts(alloc, words)?;
    read_texts(alloc, &texts)
}

/// The same of words as `clap` takes them.
fn read_texts<'a>(alloc: Global, words: &'a [&'a str]) -> Result<Option<Command>, AllocError>
    requires plain { list_all may_name_a_file (map (λ w. w.now) words.now) ≡ true }
    ensures { IfOk result
        (λ r. option_map asked_of r ≡ asked_by (map (λ w. w.now) words.entry.now)) }
{
    let matches = parsed(program(alloc)?, words)?;
    read_matches(alloc, matches)
}

/// The commands of the program. Neither help nor a version is asked for by a word: all that isn't a
/// command is answered by the usage.
fn program<'a>(alloc: Global) -> Result<clap::Command<'a>, AllocError>
    ensures { IfOk result (λ c. app_of c ≡ program) }
{
    let program = with_command(bare(alloc), run_command(alloc))?;
    let program = with_command(program, make_command(alloc))?;
    with_command(program, check_command(alloc))
}

/// A program with one command more, if there was memory to make that.
fn with_command<'a>(
    program: clap::Command<'a>,
    command: Result<clap::Command<'a>, AllocError>,
) -> Result<clap::Command<'a>, AllocError>
    requires local { IfOk command (λ c. IsLocal c) }
    ensures { IfOk result (λ c. HasAlso (app_of program.entry) command.entry (app_of c)) }
{
    program.subcommand(command?)
}

/// The program with no command.
fn bare<'a>(alloc: Global) -> clap::Command<'a>
    ensures { app_of result ≡ bare }
{
    clap::Command::new(alloc, "memdb")
        .no_binary_name(true)
        .disable_help_flag(true)
        .disable_help_subcommand(true)
        .subcommand_required(true)
}

/// The command `run`, with its words.
fn run_command<'a>(alloc: Global) -> Result<clap::Command<'a>, AllocError>
    ensures app { IfOk result (λ c. app_of c ≡ run_app) }
    ensures local { IfOk result (λ c. IsLocal c) }
{
    let run = with_word(alloc, clap::Command::new(alloc, "run"), "schema")?;
    run.arg(client_words(alloc))
}

/// The command `make`, with its words.
fn make_command<'a>(alloc: Global) -> Result<clap::Command<'a>, AllocError>
    ensures app { IfOk result (λ c. app_of c ≡ make_app) }
    ensures local { IfOk result (λ c. IsLocal c) }
{
    let make = with_word(alloc, clap::Command::new(alloc, "make"), "number")?;
    let make = with_word(alloc, make, "clients")?;
    with_word(alloc, make, "count")
}

/// The command `check`, with its words.
fn check_command<'a>(alloc: Global) -> Result<clap::Command<'a>, AllocError>
    ensures app { IfOk result (λ c. app_of c ≡ check_app) }
    ensures local { IfOk result (λ c. IsLocal c) }
{
    clap::Command::new(alloc, "check").arg(file_words(alloc))
}

/// A command with one word more, which has to be there.
fn with_word<'a>(
    alloc: Global,
    command: clap::Command<'a>,
    id: &'a str,
) -> Result<clap::Command<'a>, AllocError>
    requires local { IsLocal command }
    ensures app { IfOk result
        (λ c. app_of c ≡ with_rule (app_of command.entry) (word_rule id.entry.now)) }
    ensures local { IfOk result (λ c. IsLocal c) }
{
    command.arg(word(alloc, id))
}

/// A word that has to be there.
fn word<'a>(alloc: Global, id: &'a str) -> Arg<'a>
    ensures rule { rule_of result ≡ word_rule id.entry.now }
    ensures local { result.global ≡ false }
{
    Arg::new(alloc, id).required(true)
}

/// The words that name the clients' files.
fn client_words<'a>(alloc: Global) -> Arg<'a>
    ensures rule { rule_of result ≡ clients_rule }
    ensures local { result.global ≡ false }
{
    word(alloc, "clients").num_args(1..=64)
}

/// The words that name a schema's file, clients' files and an output's.
fn file_words<'a>(alloc: Global) -> Arg<'a>
    ensures rule { rule_of result ≡ files_rule }
    ensures local { result.global ≡ false }
{
    word(alloc, "files").num_args(3..=66)
}

/// What `clap` makes of the words.
fn parsed<'a>(
    command: clap::Command<'a>,
    words: &'a [&'a str],
) -> Result<Option<ArgMatches<'a>>, AllocError>
    requires program { app_of command ≡ program }
    requires plain { list_all may_name_a_file (map (λ w. w.now) words.now) ≡ true }
    ensures { IfOk result (AreRead (map (λ w. w.now) words.entry.now)) }
{
    match command.try_get_matches_from(words) {
        Ok(matches) => Ok(Some(matches)),
        Err(error) => match error.kind() {
            ErrorKind::OutOfMemory => Err(AllocError),
            _ => Ok(None),
        },
    }
}

/// The command of a parse, where the words are one.
fn read_matches(
    alloc: Global,
    matches: Option<ArgMatches<'_>>,
) -> Result<Option<Command>, AllocError>
    requires clients { HasClients (option_and_then asked_of_matches matches) }
    ensures { IfOk result
        (λ r. option_map asked_of r ≡ option_and_then asked_of_matches matches.entry) }
{
    match matches {
        Some(matches) => read_subcommand(alloc, &matches),
        None => Ok(None),
    }
}

/// The command that `clap` found.
fn read_subcommand(alloc: Global, matches: &ArgMatches<'_>) -> Result<Option<Command>, AllocError>
    requires clients { HasClients (asked_of_matches matches.now) }
    ensures { IfOk result (λ r. option_map asked_of r ≡ asked_of_matches matches.now) }
{
    match matches.subcommand() {
        Some(("run", found)) => read_run(alloc, found),
        Some(("make", found)) => Ok(read_make(found)),
        Some(("check", found)) => read_check(alloc, found),
        _ => Ok(None),
    }
}

/// The command `run` with these words.
fn read_run(alloc: Global, found: &ArgMatches<'_>) -> Result<Option<Command>, AllocError>
    requires clients { HasClients (option_map to_run (files_in (rows_of (found_of found.now)))) }
    ensures { IfOk result (λ r. option_map asked_of r
        ≡ option_map to_run (files_in (rows_of (found_of found.now)))) }
{
    let Some(schema) = found.get_str("schema") else {
        return Ok(None);
    };
    let Some(clients) = found.get_strs("clients") else {
        return Ok(None);
    };
    Ok(Some(Command::Run(named(alloc, schema, clients)?)))
}

/// Copies of the files' names.
fn named(alloc: Global, schema: &str, clients: &[&str]) -> Result<Named, AllocError>
    requires some { 1 ≤ length clients.now }
    requires few { length clients.now ≤ 64 }
    ensures { IfOk result (λ r. named_of r ≡ files schema.now (map (λ w. w.now) clients.now)) }
{
    let schema = Text::of(alloc, schema)?;
    let clients = copies(alloc, clients)?;
    Ok(Named { schema, clients })
}

/// Copies of words.
fn copies(alloc: Global, words: &[&str]) -> Result<Texts, AllocError>
    ensures { IfOk result (λ r. r ≡ map (λ w. w.now) words.now) }
{
    let mut copies = Texts::new(alloc);
    for word in words {
        add_copy(alloc, word, &mut copies)?;
    }
    Ok(copies)
}

/// Adds a copy of a word.
fn add_copy(alloc: Global, word: &str, copies: &mut Texts) -> Result<(), AllocError>
    ensures { OnOk result (copies.new ≡ copies.old ++ word.now ∷ []) }
{
    copies.push(Text::of(alloc, word)?)
}

/// The command `check` with these words.
fn read_check(alloc: Global, found: &ArgMatches<'_>) -> Result<Option<Command>, AllocError>
    requires clients { HasClients (option_map to_check (check_in (rows_of (found_of found.now)))) }
    ensures { IfOk result (λ r. option_map asked_of r
        ≡ option_map to_check (check_in (rows_of (found_of found.now)))) }
{
    let Some(files) = found.get_strs("files") else {
        return Ok(None);
    };
    checked(alloc, files)
}

/// The command `check` of the files that words name: the last is the output's, and those before it a
/// schema's and 1 to 64 clients'.
fn checked(alloc: Global, words: &[&str]) -> Result<Option<Command>, AllocError>
    requires clients { HasClients (option_map to_check (check_behind (map (λ w. w.now) words.now))) }
    ensures { IfOk result (λ r. option_map asked_of r
        ≡ option_map to_check (check_behind (map (λ w. w.now) words.now))) }
{
    let Some((output, inputs)) = words.split_last() else {
        return Ok(None);
    };
    let Some((schema, clients)) = inputs.split_first() else {
        return Ok(None);
    };
    if clients.is_empty() || clients.len() > 64 {
        return Ok(None);
    }
    let inputs = named(alloc, schema, clients)?;
    let output = Text::of(alloc, output)?;
    Ok(Some(Command::Check(CheckedFiles { inputs, output })))
}

/// The command `make` with these words, where they are numbers in range.
fn read_make(found: &ArgMatches<'_>) -> Option<Command>
    ensures { option_map asked_of result
        ≡ option_map to_make (numbers_in (rows_of (found_of found.now))) }
{
    Some(Command::Make(numbers(found)?))
}

/// The numbers behind `make`.
fn numbers(found: &ArgMatches<'_>) -> Option<Numbers>
    ensures { result ≡ numbers_in (rows_of (found_of found.now)) }
{
    let number = number_at(found, "number")?;
    let clients = number_at(found, "clients")?;
    let count = number_at(found, "count")?;
    Numbers::of(number, clients, count)
}

/// The number that the word of this name is.
fn number_at(found: &ArgMatches<'_>, id: &str) -> Option<u32>
    ensures { result ≡ number_at id.now (rows_of (found_of found.now)) }
{
    number_in(found.get_str(id)?)
}

/// The words as `clap` takes them.
fn texts<'a>(alloc: Global, words: &'a [Text]) -> Result<Vec<&'a str>, AllocError>
    ensures { IfOk result (λ r. map (λ w. w.now) r.items ≡ words.entry.now) }
{
    let mut texts = Vec::new(alloc);
    for word in words {
        texts.push(word.as_str())?;
    }
    Ok(texts)
}
