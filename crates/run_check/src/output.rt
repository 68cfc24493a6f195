//! The first three tests of an output, which need no schema.
ghost use Rattle.std.specs.Prelude.{◌≡◌, ◌≤◌, ◌^◌, IfOk, List, length};
ghost use Rattle.client_script.specs.declared.line.Line.{Line};
ghost use Rattle.run_check.specs.Output.{output_in};
ghost use Rattle.run_check.specs.OutputView.{IsOrdered, output_of};
ghost use Rattle.run_check.specs.Reads.{Reads};

use crate::commits::{Committed, all_commits, check_bases, in_order};
use crate::shape::{Replies, shape};
use crate::stop::Stop;
use client_script::Scripts;
use run_io::Texts;
use std::alloc::Global;

/// An output that passes the first three tests: each client's replies as they stand in the text, and
/// the commits that they print.
#[derive(Drop)]
pub struct Output<'a> {
    pub(crate) clients: Vec<Replies<'a>>,
    /// In the order of the text.
    pub(crate) commits: Vec<Committed>,
    /// For each number from 1 on the place of the commit that has it.
    pub(crate) order: Vec<usize>,
}

/// What a text tells of clients whose files have these names and whose scripts are these, or the first
/// line that fails one of three tests: the text has the shape of their output, its commits are numbered
/// from 1 on, each number once, and each stands on the one before it.
///
/// It takes time and memory in proportion to text and scripts.
pub fn read_output<'a>(
    alloc: Global,
    words: &Texts,
    scripts: &Scripts,
    out: &'a [u8],
) -> Result<Output<'a>, Stop>
    requires named { length words.now ≡ length scripts.now }
    requires few { length scripts.now ≤ 64 }
    requires small { length out.now ≤ 2 ^ 24 }
    ensures told { Reads (output_of scripts.now) (output_in words.now scripts.now out.now) result }
    ensures ordered { IfOk result (λ output. IsOrdered scripts.now output) }
{
    let clients = shape(alloc, words, scripts, out)?;
    let commits = all_commits(alloc, scripts, &clients)?;
    let order = in_order(alloc, &commits)?;
    check_bases(&commits)?;
    Ok(Output {
        clients,
        commits,
        order,
    })
}

impl Output<'_> {
    /// How many commits it prints.
    pub fn commit_count(&self) -> usize
        ensures { (scripts : List (List Line)) → result ≡ length (output_of scripts self.now).commits }
    {
        self.commits.len()
    }
}
