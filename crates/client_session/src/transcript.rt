//! The answers so far.
ghost use Rattle.std.specs.Prelude.{◌≡◌, ◌+◌, ◌<◌, ◌^◌, [], OnErr, OnOk};
ghost use Rattle.client_session.specs.inner.Added.{AddsReply};

use crate::reply::Reply;
use mdb_schema::Schema;
use std::alloc::{AllocError, Global};
use std::marker::Model;

/// The text of the answers so far, and how many of them tell a commit.
#[derive(Drop)]
pub(crate) struct Transcript {
    text: Vec<u8>,
    commits: u64,
}

impl Model for Transcript {
    ghost use Rattle.client_session.specs.inner.Transcript.{Transcript, transcript_code};

    ghost Value = { Transcript };

    ghost coded = { transcript_code };

    ghost view = { λ t. record { text = t.text.items; commits = t.commits } };
}

impl Transcript {
    /// No answers. It takes no memory.
    pub(crate) fn new(alloc: Global) -> Transcript
        ensures { result ≡ record { text = []; commits = 0 } }
    {
        Transcript {
            text: Vec::new(alloc),
            commits: 0,
        }
    }

    /// Adds `LINE: ANSWER` and a line feed. After `AllocError` all is as before.
    pub(crate) fn add(
        &mut self,
        schema: &Schema,
        line: u32,
        reply: &Reply,
    ) -> Result<(), AllocError>
        requires room { self.old.commits + 1 < 2 ^ 64 }
        ensures added { OnOk result (AddsReply schema.now line reply.now self.old self.new) }
        ensures kept { OnErr result (self.new ≡ self.old) }
    {
        reply.add(line, schema, &mut self.text)?;
        if reply.tells_commit() {
            self.commits += 1;
        }
        Ok(())
    }

    /// The text.
    pub(crate) fn text(&self) -> &[u8]
        ensures { result.now ≡ self.now.text }
    {
        self.text.as_slice()
    }

    /// How many answers tell a commit.
    pub(crate) fn commits(&self) -> u64
        ensures { result ≡ self.now.commits }
    {
        self.commits
    }

    /// Where its memory comes from.
    pub(crate) fn allocator(&self) -> Global {
        *self.text.allocator()
    }
}
