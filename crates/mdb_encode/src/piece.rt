//! The pieces that keys are written from.
ghost use Rattle.std.specs.Prelude.{◌≡◌, ◌++◌, ◌∷◌, [], length, min, take, IfOk, OnOk, true};
ghost use Rattle.mdb_encode.specs.Keys.{folded, text_key, big_endian};
ghost use Rattle.mdb_encode.specs.Kind.{width_bytes};
ghost use Rattle.mdb_encode.specs.inner.Piece.{bytes_of};

use crate::fixed::{Id, Number, Start};
use crate::{Key, Width};
use std::alloc::{AllocError, Global};

/// What a member or an argument puts into a key: read and tested, and not yet written.
#[derive(Clone, Copy)]
pub(crate) enum Piece<'a> {
    /// A text, whose letters are folded or not, and its end byte.
    Text(&'a str, bool),
    /// A text without its end byte.
    Open(&'a str, bool),
    /// A name and a text, each with its end byte, and folded or not.
    Pair(&'a str, &'a str, bool),
    /// A number.
    Number(Number),
    /// A truth value.
    Flag(bool),
    /// A UUID.
    Id(Id),
    /// The start of a UUID.
    Start(Start),
}

impl Piece<'_> {
    /// How many bytes it puts into a key, or the greatest count that there is.
    #[tactic(auto, using(crate::proofs::BigEndian::length_big_endian))]
    pub(crate) fn len(self) -> usize
        ensures { result ≡ min (length (bytes_of self.entry)) usize.MAX }
    {
        match self {
            Piece::Text(text, _) => text.len() + 1,
            Piece::Open(text, _) => text.len(),
            Piece::Pair(name, text, _) => (name.len() + 1).saturating_add(text.len() + 1),
            Piece::Number(number) => number.width.bytes() as usize,
            Piece::Flag(_) => 1,
            Piece::Id(_) => 16,
            Piece::Start(start) => start.len,
        }
    }

    /// A key of this piece alone, in memory for its bytes.
    pub(crate) fn key(self, alloc: Global) -> Result<Key, AllocError>
        ensures { IfOk result (λ key. key ≡ bytes_of self.entry) }
    {
        let mut bytes = Vec::with_capacity(alloc, self.len())?;
        self.write(&mut bytes)?;
        Ok(Key::of(bytes))
    }

    /// Puts its bytes behind those of `key`.
    pub(crate) fn write(self, key: &mut Vec<u8>) -> Result<(), AllocError>
        ensures { OnOk result (key.new.items ≡ key.old.items ++ bytes_of self.entry) }
    {
        match self {
            Piece::Text(text, lowercase) => write_ended(key, text, lowercase),
            Piece::Open(text, lowercase) => write_text(key, text, lowercase),
            Piece::Pair(name, text, lowercase) => write_pair(key, name, text, lowercase),
            Piece::Number(number) => write_number(key, number.number, number.width),
            Piece::Flag(value) => write_byte(key, u8::from(value)),
            Piece::Id(id) => key.extend_from_slice(&id.bytes),
            Piece::Start(start) => write_start(key, &start),
        }
    }
}

/// Writes the bytes of a start that are meant.
fn write_start(key: &mut Vec<u8>, start: &Start) -> Result<(), AllocError>
    ensures { OnOk result (key.new.items
        ≡ key.old.items ++ take start.now.len start.now.bytes) }
{
    key.extend_from_slice(&start.bytes[..start.len])
}

/// Writes one byte.
fn write_byte(key: &mut Vec<u8>, byte: u8) -> Result<(), AllocError>
    ensures { OnOk result (key.new.items ≡ key.old.items ++ byte ∷ []) }
{
    key.push(byte)?;
    Ok(())
}

/// Writes a name and a text, each with its end byte.
fn write_pair(key: &mut Vec<u8>, name: &str, text: &str, lowercase: bool) -> Result<(), AllocError>
    ensures { OnOk result (key.new.items
        ≡ key.old.items ++ (text_key lowercase name.now ++ text_key lowercase text.now)) }
{
    write_ended(key, name, lowercase)?;
    write_ended(key, text, lowercase)
}

/// Writes a text and its end byte.
fn write_ended(key: &mut Vec<u8>, text: &str, lowercase: bool) -> Result<(), AllocError>
    ensures { OnOk result (key.new.items ≡ key.old.items ++ text_key lowercase text.now) }
{
    write_text(key, text, lowercase)?;
    write_byte(key, 0)
}

/// Writes a text, whose letters are folded or not.
fn write_text(key: &mut Vec<u8>, text: &str, lowercase: bool) -> Result<(), AllocError>
    ensures { OnOk result (key.new.items ≡ key.old.items ++ folded lowercase text.now) }
{
    if lowercase {
        write_folded(key, text.as_bytes())
    } else {
        key.extend_from_slice(text.as_bytes())
    }
}

/// Writes a text with the ASCII letters A to Z as a to z.
fn write_folded(key: &mut Vec<u8>, bytes: &[u8]) -> Result<(), AllocError>
    ensures { OnOk result (key.new.items ≡ key.old.items ++ folded true bytes.now) }
{
    for byte in bytes {
        key.push(byte.to_ascii_lowercase())?;
    }
    Ok(())
}

/// Writes a number in so many bytes, the most significant first.
fn write_number(key: &mut Vec<u8>, number: u64, width: Width) -> Result<(), AllocError>
    ensures { OnOk result (key.new.items
        ≡ key.old.items ++ big_endian (width_bytes width) number) }
{
    let mut left = width.bytes();
    while left > 0 {
        left -= 1;
        key.push((number >> (8 * left) & 0xff) as u8)?;
    }
    Ok(())
}
