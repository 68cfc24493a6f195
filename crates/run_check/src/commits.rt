//! The second and the third test of an output: the numbers of its commits, and the commits on which
//! these stand.
ghost use Rattle.std.specs.Prelude.{◌≡◌, ◌+◌, ◌-◌, ◌++◌, IfOk, List, None, OnOk, Some, filter_map};
ghost use Rattle.std.specs.Prelude.{if◌then◌else◌, map, slice_set};
ghost use Rattle.std.specs.Result.{result_map_both};
ghost use Rattle.client_script.specs.declared.command.Command.TheVariants as commands;
ghost use Rattle.client_script.specs.declared.command.TransactionCommand.TheVariants as transaction_lines;
ghost use Rattle.client_script.specs.declared.line.Line.{Line};
ghost use Rattle.run_check.specs.Commits.{all_commits, bases, commits_of, no_work, stands_before};
ghost use Rattle.run_check.specs.CommitView.{IsOrderOf, committed_of, is_free, printed_commit};
ghost use Rattle.run_check.specs.CommitView.{script_at, work_after, working_of};
ghost use Rattle.run_check.specs.Reads.{lists_of};
ghost use Rattle.run_check.specs.Views.{bad_line, printed_of};

use crate::bad::BadLine;
use crate::decimal::number_behind;
use crate::mode::Mode;
use crate::shape::{Printed, Replies};
use crate::stop::Stop;
use client_script::{Command, Line, Script, Scripts, TransactionCommand};
use std::alloc::{AllocError, Global};

/// A reply `commit @m`.
#[derive(Clone, Copy)]
pub(crate) struct Committed {
    /// The number of its first line in the text.
    pub(crate) line: u32,
    /// The client's place, counted from 0.
    pub(crate) client: usize,
    /// The number m.
    pub(crate) number: u64,
    /// The number that the transaction's `write` was answered with, none where that was refused.
    begun: Option<u64>,
    /// The place of the transaction's first line behind `write`, and that of its `commit`.
    pub(crate) first: usize,
    pub(crate) end: usize,
}

/// What a client has open, and where that began.
#[derive(Clone, Copy)]
struct Working {
    mode: Mode,
    begun: Option<u64>,
    first: usize,
}

impl Working {
    /// What is open after a line, which was answered so; `next` is the place behind it.
    fn after(self, next: usize, command: &Command, text: &[u8]) -> Working
        ensures { result ≡ work_after self next command.now text.now }
    {
        match command {
            Command::Transaction(line) => self.after_transaction(next, line, text),
            _ => self,
        }
    }

    /// The same of a line that begins or ends a transaction.
    fn after_transaction(self, next: usize, line: &TransactionCommand, text: &[u8]) -> Working
        ensures { result ≡ work_after self next (commands.Transaction line.now) text.now }
    {
        match line {
            TransactionCommand::Write => self.after_write(next, text),
            _ => Working {
                mode: self.mode.after_transaction(line),
                ..self
            },
        }
    }

    /// The same of one that begins a write transaction, where nothing is open.
    fn after_write(self, next: usize, text: &[u8]) -> Working
        ensures { result
            ≡ work_after self next (commands.Transaction transaction_lines.Write) text.now }
    {
        match self.mode {
            Mode::Idle => Working {
                mode: Mode::Writes,
                begun: number_behind(b"write @", text),
                first: next,
            },
            Mode::Reads | Mode::Writes => self,
        }
    }
}

/// Adds the commit that a reply prints, if it prints one. `at` is the place of its line.
fn add_commit(
    client: usize,
    at: usize,
    working: Working,
    printed: &Printed<'_>,
    commits: &mut Vec<Committed>,
) -> Result<(), AllocError>
    ensures { OnOk result ((scripts : List (List Line)) → map (committed_of scripts) commits.new.items
        ≡ map (committed_of scripts) commits.old.items
        ++ printed_commit (client + 1) (working_of (script_at scripts client) at working)
        (printed_of printed.now)) }
{
    match number_behind(b"commit @", printed.text) {
        Some(number) => {
            commits.push(Committed {
                line: printed.line,
                client,
                number,
                begun: working.begun,
                first: working.first,
                end: at,
            })?;
            Ok(())
        }
        None => Ok(()),
    }
}

/// Adds a client's commits.
fn add_commits(
    client: usize,
    script: &Script,
    replies: &[Printed<'_>],
    commits: &mut Vec<Committed>,
) -> Result<(), AllocError>
    ensures { OnOk result ((scripts : List (List Line)) → script_at scripts client ≡ script.now
        → map (committed_of scripts) commits.new.items
        ≡ map (committed_of scripts) commits.old.items
        ++ commits_of (client + 1) no_work script.now (map printed_of replies.now)) }
{
    let mut working = Working {
        mode: Mode::Idle,
        begun: None,
        first: 0,
    };
    for at in 0..script.len() {
        let Some(line) = script.get(at) else {
            unreachable!();
        };
        let Some(printed) = replies.get(at) else {
            return Ok(());
        };
        add_commit(client, at, working, printed, commits)?;
        working = working.after(at + 1, &line.command, printed.text);
    }
    Ok(())
}

/// The commits of all clients, in the order of the text.
pub(crate) fn all_commits(
    alloc: Global,
    scripts: &Scripts,
    clients: &[Replies<'_>],
) -> Result<Vec<Committed>, AllocError>
    ensures { IfOk result (λ commits. map (committed_of scripts.now) commits.items
        ≡ all_commits 1 scripts.now (lists_of clients.now)) }
{
    let mut commits = Vec::new(alloc);
    for (client, replies) in clients.iter().enumerate() {
        let Some(script) = scripts.get(client) else {
            return Ok(commits);
        };
        add_commits(client, script, replies, &mut commits)?;
    }
    Ok(commits)
}

/// For each number from 1 on the place of the commit that has it, or the first commit whose number
/// is none of 1 to their count, or comes twice.
pub(crate) fn in_order(alloc: Global, commits: &[Committed]) -> Result<Vec<usize>, Stop>
    ensures { (scripts : List (List Line))
        → IsOrderOf (map (committed_of scripts) commits.now) result }
{
    let mut order: Vec<Option<usize>> = Vec::new(alloc);
    order.resize(commits.len(), None)?;
    for (at, commit) in commits.iter().enumerate() {
        if !take_number(&mut order, at, commit.number) {
            return Err(Stop::Bad { line: commit.line });
        }
    }
    Ok(all_there(alloc, &order)?)
}

/// Keeps the place of the commit of a number. False: the number is none of 1 to the count, or taken.
fn take_number(order: &mut Vec<Option<usize>>, at: usize, number: u64) -> bool
    ensures free { result ≡ is_free number order.old.items }
    ensures taken { order.new.items
        ≡ (if result then slice_set order.old.items (number - 1) (Some at) else order.old.items) }
{
    if number == 0 || number > order.len() as u64 {
        return false;
    }
    let place = number as usize - 1;
    if order[place].is_some() {
        return false;
    }
    order[place] = Some(at);
    true
}

/// The places that are kept, in order.
fn all_there(alloc: Global, order: &[Option<usize>]) -> Result<Vec<usize>, AllocError>
    ensures { IfOk result (λ places. places.items ≡ filter_map (λ place. place) order.now) }
{
    order.iter().filter_map(|place| *place).collect(alloc)
}

/// The first commit whose transaction was told to stand on another commit than the one before it.
pub(crate) fn check_bases(commits: &[Committed]) -> Result<(), BadLine>
    ensures { (scripts : List (List Line)) → result_map_both (λ u. u) bad_line result
        ≡ bases (map (committed_of scripts) commits.now) }
{
    for commit in commits {
        if !stands_before(commit.begun, commit.number) {
            return Err(BadLine { line: commit.line });
        }
    }
    Ok(())
}

/// Whether a transaction that was told its number, if it was, stands on the commit before this one.
fn stands_before(begun: Option<u64>, number: u64) -> bool
    ensures { result ≡ stands_before begun number }
{
    match begun {
        Some(begun) => begun.checked_add(1) == Some(number),
        None => true,
    }
}
