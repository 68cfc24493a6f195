//! The files that a command names, by its words.
ghost use Rattle.std.specs.Prelude.{◌≡◌, ◌<◌, ◌≤◌, ◌++◌, ◌∷◌, [], Some, IfOk, OnOk, length};
ghost use Rattle.std.specs.Prelude.{option_map, slice_get};
ghost use Rattle.std.specs.List.{list_all};
ghost use Rattle.run_io.specs.Named.{files_behind, files_named_by, in_order, may_name_a_file};

use crate::texts::Texts;
use mdb_datum::Text;
use std::alloc::{AllocError, Global};

/// The files that a command names: its schema, and the scripts of its 1 to 64 clients in order.
#[derive(Drop)]
pub struct Named {
    pub schema: Text,
    pub clients: Texts,
    pub ghost some: { 1 ≤ length clients },
    pub ghost few: { length clients ≤ 64 },
}

impl Named {
    ghost use Rattle.run_io.specs.NamedOf.{named_of};

    /// The files that words name, of which there are at most `most` clients': `None` unless each
    /// word may name a file, the first is a schema's, and 1 to `most` follow it. It takes memory
    /// for copies of the names.
    pub fn of(alloc: Global, words: &[Text], most: usize) -> Result<Option<Named>, AllocError>
        requires { most ≤ 64 }
        ensures { IfOk result
            (λ named. option_map named_of named ≡ files_named_by most words.now) }
    {
        if !may_name_files(words) {
            return Ok(None);
        }
        Named::listed(alloc, words, most)
    }

    /// The same for words that may each name a file.
    fn listed(alloc: Global, words: &[Text], most: usize) -> Result<Option<Named>, AllocError>
        requires { most ≤ 64 }
        ensures { IfOk result (λ named. option_map named_of named ≡ files_behind most words.now) }
    {
        let Some((schema, clients)) = words.split_first() else {
            return Ok(None);
        };
        if clients.is_empty() || clients.len() > most {
            return Ok(None);
        }
        Ok(Some(Named::copied(alloc, schema, clients)?))
    }

    /// Copies of these names.
    fn copied(alloc: Global, schema: &Text, clients: &[Text]) -> Result<Named, AllocError>
        requires some { 1 ≤ length clients.now }
        requires few { length clients.now ≤ 64 }
        ensures { IfOk result
            (λ named. named_of named ≡ record { schema = schema.now; clients = clients.now }) }
    {
        let schema = Text::of(alloc, schema.as_str())?;
        let clients = copies(alloc, clients)?;
        Ok(Named { schema, clients })
    }

    /// The names of the clients' files, in order.
    pub fn names(&self) -> &[Text]
        ensures names { result.now ≡ self.now.clients }
        ensures some { 1 ≤ length result.now }
        ensures few { length result.now ≤ 64 }
    {
        self.clients.as_slice()
    }

    /// The name of a file, by its number: 0 is the schema's, and 1 the first client's.
    pub fn file(&self, file: u32) -> &Text
        requires { file < length (in_order (named_of self.now)) }
        ensures { slice_get (in_order (named_of self.now)) file ≡ Some result.now }
    {
        if file == 0 {
            return &self.schema;
        }
        match self.clients.get(file as usize - 1) {
            Some(name) => name,
            None => unreachable!(),
        }
    }
}

/// Copies of texts, in order.
fn copies(alloc: Global, texts: &[Text]) -> Result<Texts, AllocError>
    ensures { IfOk result (λ copies. copies ≡ texts.now) }
{
    let mut copies = Texts::new(alloc);
    for text in texts {
        add_copy(alloc, text, &mut copies)?;
    }
    Ok(copies)
}

/// Adds a copy of a text.
fn add_copy(alloc: Global, text: &Text, copies: &mut Texts) -> Result<(), AllocError>
    ensures { OnOk result (copies.new ≡ copies.old ++ text.now ∷ []) }
{
    copies.push(Text::of(alloc, text.as_str())?)
}

/// Whether each word may name a file: it isn't empty, doesn't begin with `-` and holds no line feed.
pub fn may_name_files(words: &[Text]) -> bool
    ensures { result ≡ list_all may_name_a_file words.now }
{
    words.iter().all(may_name_a_file)
}

/// Whether a word may name a file.
fn may_name_a_file(word: &Text) -> bool
    ensures { result ≡ may_name_a_file word.now }
{
    match word.as_str().as_bytes() {
        [] | [b'-', ..] => false,
        bytes => !bytes.contains(&b'\n'),
    }
}
