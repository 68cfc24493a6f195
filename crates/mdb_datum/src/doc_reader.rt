//! A reader of one document after another.
ghost use Rattle.std.specs.Prelude.{◌≡◌, IfOk, IsErrOf};
ghost use Rattle.mdb_datum.specs.Canonical.{IsCanonical};
ghost use Rattle.mdb_datum.specs.Datum.{doc_of};
ghost use Rattle.mdb_datum.specs.Reading.{reading, read_as, no_json, too_deep, not_whole};

use crate::plain::{JSON_DEPTH, Stop, plain_value};
use crate::read::read_doc;
use crate::{Datum, DocError};
use json::{Reader, Scratch};
use std::alloc::Global;
use std::str;

/// A reader of documents, which keeps the room that reading takes.
#[derive(Drop)]
pub struct DocReader {
    alloc: Global,
    scratch: Scratch,
}

impl DocReader {
    /// A reader. It takes no memory, but has 16 KiB in itself.
    pub fn new(alloc: Global) -> DocReader {
        DocReader {
            alloc,
            scratch: Scratch::new(alloc),
        }
    }

    /// The allocator of what it reads.
    pub fn alloc(&self) -> Global {
        self.alloc
    }

    /// The document that a text is, as `read_doc` reads it. It takes memory for the document, and
    /// time in proportion to the text; a text that is longer than each before it takes memory of
    /// its length, which the reader keeps.
    ///
    /// # Errors
    /// `Syntax` where the text is no JSON, else `Deep`, else `NotWhole`; `Memory` may come at any
    /// text.
    pub fn read(&mut self, bytes: &[u8]) -> Result<Datum, DocError>
        ensures ok { IfOk result (λ d. reading bytes.now ≡ read_as (doc_of d)) }
        ensures canonical { IfOk result (λ d. IsCanonical (doc_of d)) }
        ensures syntax { IsErrOf result DocError.Syntax → reading bytes.now ≡ no_json }
        ensures deep { IsErrOf result DocError.Deep → reading bytes.now ≡ too_deep }
        ensures not_whole { IsErrOf result DocError.NotWhole → reading bytes.now ≡ not_whole }
    {
        match plain_doc(self.alloc, bytes, &mut self.scratch) {
            Ok(document) => Ok(document),
            Err(Stop::Memory) => Err(DocError::Memory),
            Err(Stop::NotPlain) => read_doc(self.alloc, bytes),
        }
    }
}

/// The document that a text is, where it is plain.
fn plain_doc(alloc: Global, bytes: &[u8], scratch: &mut Scratch) -> Result<Datum, Stop>
    ensures ok { IfOk result (λ d. reading bytes.now ≡ read_as (doc_of d)) }
    ensures canonical { IfOk result (λ d. IsCanonical (doc_of d)) }
{
    let Ok(text) = str::from_utf8(bytes) else {
        return Err(Stop::NotPlain);
    };
    let mut reader = Reader::new(text, scratch)?;
    let document = plain_value(alloc, &mut reader, JSON_DEPTH)?;
    if reader.next().is_some() {
        return Err(Stop::NotPlain);
    }
    Ok(document)
}
