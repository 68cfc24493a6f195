//! How a test ends. A test that hands its result on here has no `?` of its own, which makes its
//! proof a third as long.
use std::alloc::{AllocError, Global};
use std::test::Fail;

/// Fails where it isn't so, or where there was no memory to find out.
pub fn holds(told: Result<bool, AllocError>) -> Result<(), Fail> {
    match told? {
        true => Ok(()),
        false => Err(Fail::new("it isn't so")),
    }
}

/// Fails where the last write was refused, with another text where one left what it shouldn't, and
/// where there was no memory to find out. A `told` says that the last write was refused.
pub fn is_whole(told: Result<Option<bool>, AllocError>) -> Result<(), Fail> {
    match told? {
        Some(false) => Ok(()),
        Some(true) => Err(Fail::new("a write was refused, and all is kept")),
        None => Err(Fail::new("it isn't so")),
    }
}

/// Fails with the place of a case that is wrong, or where there was no memory to find out.
pub fn none_wrong(alloc: Global, wrong: Result<Option<usize>, AllocError>) -> Result<(), Fail> {
    match wrong? {
        None => Ok(()),
        Some(at) => Err(Fail::from(format!(in alloc; "case {at}")?)),
    }
}
