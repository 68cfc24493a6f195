//! The words of the command line, from the arguments that the host gives.
ghost use Rattle.std.specs.Prelude.{◌≡◌, ◌++◌, ◌∷◌, [], IfOk, OnOk, map, string_bytes};
ghost use Rattle.std.specs.Vec.Iter.{into_iter_items};
ghost use Rattle.run_io.specs.Arguments.{words_behind, words_in};

use mdb_datum::Text;
use std::alloc::{AllocError, Global};
use std::{env, io};

/// The words of the command line: the host's arguments behind the first, which is the program's
/// name. Where one of them is no text there are none, which is no command. It takes memory for
/// copies of them.
pub fn words_of(alloc: Global, args: io::Result<env::Args>) -> Result<Vec<Text>, AllocError>
    ensures { IfOk result (λ words. words.items ≡ words_in args) }
{
    match args {
        Ok(args) => words_behind(alloc, args),
        Err(error) if error.kind() == io::ErrorKind::OutOfMemory => Err(AllocError),
        Err(_error) => Ok(Vec::new(alloc)),
    }
}

/// Copies of the arguments behind the first.
fn words_behind(alloc: Global, args: env::Args) -> Result<Vec<Text>, AllocError>
    ensures { IfOk result (λ words. words.items ≡ words_behind (into_iter_items args)) }
{
    let mut args = args;
    drop(args.next());
    copies(alloc, args)
}

/// Copies of texts, in order.
fn copies(alloc: Global, texts: env::Args) -> Result<Vec<Text>, AllocError>
    ensures { IfOk result
        (λ words. words.items ≡ map string_bytes (into_iter_items texts)) }
{
    let mut words = Vec::new(alloc);
    for text in texts {
        add_word(alloc, text, &mut words)?;
    }
    Ok(words)
}

/// Adds a copy of a text.
fn add_word(alloc: Global, text: String, words: &mut Vec<Text>) -> Result<(), AllocError>
    ensures { OnOk result (words.new.items ≡ words.old.items ++ string_bytes text ∷ []) }
{
    words.push(Text::of(alloc, &text)?)?;
    Ok(())
}
