//! Index keys: the byte strings under which a row stands in an index, and those of a question's
//! arguments, for the ten kinds of go-memdb's indexers.
//!
//! The layer above may use `Kind` with its lists of parts, `keys_of` for a row, `arg_key` and
//! `prefix_key` for a question, and the functions of `laws`, whose contracts say what keys are for:
//! numbers keep their order, a text's key begins with the prefix form of each of its prefixes, and
//! a key tells its member.
//!
//! A refusal is found before memory is taken. A member is found in the logarithm of their number,
//! and a key costs time in the length of what it is made from.
#![tactic(auto)]

mod arg;
mod error;
mod fixed;
mod identifier;
mod item;
mod key;
mod kind;
pub mod laws;
mod limit;
mod number;
mod piece;
mod refusal;
mod row;

pub use arg::{arg_key, prefix_key};
pub use error::{ArgError, KeyError};
pub use key::{Key, Keys};
pub use kind::{Field, Kind, Part, Parts, Scalar, Width};
pub use row::keys_of;
