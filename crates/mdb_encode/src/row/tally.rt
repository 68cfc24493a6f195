//! Counting the keys of a row before they are written.
ghost use Rattle.std.specs.Prelude.{◌++◌, ◌<◌, [], List, Ok};
ghost use Rattle.mdb_encode.specs.Bytes.{Bytes};
ghost use Rattle.mdb_encode.specs.Keys.{limited};
ghost use Rattle.mdb_encode.specs.inner.RowReading.{piece_keys};
ghost use Rattle.mdb_encode.specs.inner.Tally.{IsTally, CountsKeys};

use crate::limit::{LONGEST_KEY, MOST_KEYS};
use crate::piece::Piece;
use crate::refusal::KeyRefusal;

/// How many keys there are, and whether one of them is too long.
#[derive(Clone, Copy)]
pub(crate) struct Tally {
    /// How many keys there are.
    count: usize,
    /// Whether one of them is longer than a key may be.
    too_long: bool,
}

impl Tally {
    /// No keys.
    pub(crate) fn new() -> Tally
        ensures { IsTally [] result }
    {
        Tally {
            count: 0,
            too_long: false,
        }
    }

    /// One key more, where there is one.
    pub(crate) fn with(self, piece: &Option<Piece<'_>>) -> Tally
        requires { self.count < usize.MAX }
        ensures { (seen : List Bytes) → IsTally seen self
            → IsTally (seen ++ piece_keys piece.now) result }
    {
        match piece {
            None => self,
            Some(piece) => Tally {
                count: self.count + 1,
                too_long: self.too_long || piece.len() > LONGEST_KEY,
            },
        }
    }

    /// How many keys there are, where they keep the limits.
    pub(crate) fn limited(self) -> Result<usize, KeyRefusal>
        ensures { (seen : List Bytes) → IsTally seen self → CountsKeys (Ok seen) result }
    {
        if self.count > MOST_KEYS {
            return Err(KeyRefusal::TooMany);
        }
        if self.too_long {
            return Err(KeyRefusal::TooLong);
        }
        Ok(self.count)
    }
}
