//! Stories: what is done to a transaction, step by step, and what it must answer. Most are on the
//! trees of the words `foo`, `football`, `fool` and `foot`, each ended by a byte 00, as the shape
//! asks. A row tells its number, and a watch is told by its key.
pub mod both;
pub mod deep;
mod drawn;
pub mod tables;
pub mod written;

use crate::ending::{is_whole, none_wrong};
use crate::walks::{Ask, are_asked, gives};
use both::{Both, Told};
use std::alloc::{AllocError, Global};
use std::test::Fail;
use tables::{BYTES, DELETES, INSERTS, OWNED, PREFIXES, REFUSED, WALKS};
use written::{Line, nodes_are};

/// A step of a story.
pub enum Step {
    /// Puts these keys in turn, each with its place for its number.
    PutAll(&'static [&'static [u8]]),
    /// Puts all keys of one byte.
    PutBytes,
    /// Puts a key with a number.
    Put(&'static [u8], i128),
    /// Puts a key, and tells whether that draws ids.
    Draw(&'static [u8], bool),
    /// Takes out a key.
    Take(&'static [u8]),
    /// Takes out the keys that begin with a prefix.
    TakeAll(&'static [u8]),
    /// Gives a tree, of which nothing is kept.
    Glance,
    /// Gives a tree, which stays as it is.
    Stand,
    /// Begins a new transaction on the present tree, which stays as it is.
    Begin,
    /// Ends the transaction. The next step begins on an empty tree.
    End,
    /// The present tree has these nodes.
    Nodes(&'static [Line]),
    /// The tree that the transaction began with has them.
    Had(&'static [Line]),
    /// A prefix leads nowhere.
    Nowhere(&'static [u8]),
    /// All that may be asked with these keys gives the rows of the map.
    Asks(&'static [&'static [u8]]),
    /// What is asked gives the rows of these numbers.
    Ask(Ask, &'static [u8], &'static [i128]),
    /// Whether the watch of a key's look-up moved by the transaction that ended last, and that of
    /// the keys that begin with it.
    Watch(&'static [u8], bool, bool),
    /// The notice of that transaction lists so many cells.
    Listed(u32),
}

/// Puts keys in turn, each with its place for its number.
fn put_all(both: &mut Both, keys: &'static [&'static [u8]]) -> Told {
    for (place, key) in keys.iter().enumerate() {
        if !both.put(key, place as i128)? {
            return Ok(false);
        }
    }
    Ok(true)
}

/// Puts all keys of one byte in a scattered order, since 97 is odd, each with its byte for its number.
fn put_bytes(both: &mut Both) -> Told {
    for turn in 0..=255u8 {
        let byte = usize::from(turn.wrapping_mul(97));
        if !both.put(&BYTES[byte..byte + 1], byte as i128)? {
            return Ok(false);
        }
    }
    Ok(true)
}

/// Whether what is done to a transaction is answered as it is to a map.
fn is_done(both: &mut Both, step: &Step) -> Told {
    match step {
        Step::PutAll(keys) => put_all(both, keys),
        Step::PutBytes => put_bytes(both),
        Step::Put(key, number) => both.put(key, *number),
        Step::Draw(key, drawn) => both.draw(key, *drawn),
        Step::Take(key) => both.take(key),
        Step::TakeAll(prefix) => both.take_all(prefix),
        Step::Glance => both.glance(),
        Step::Stand => both.stand(),
        Step::Begin => both.begin(),
        Step::End => both.end(),
        _ => is_so(both, step),
    }
}

/// Whether what is said of the trees and the notice is so.
fn is_so(both: &Both, step: &Step) -> Told {
    match step {
        Step::Nodes(nodes) => Ok(nodes_are(both.tree(), nodes)),
        Step::Had(nodes) => Ok(both.had(nodes)),
        Step::Nowhere(prefix) => Ok(both.tree().seek(prefix).is_none()),
        Step::Asks(bounds) => are_asked(both, bounds),
        Step::Ask(ask, key, numbers) => gives(both.tree(), ask, key, numbers),
        Step::Watch(key, get, seek) => Ok(both.moved(key) == Some((*get, *seek))),
        Step::Listed(count) => Ok(both.lists(*count)),
        _ => Ok(false),
    }
}

/// The place of the first step that is answered otherwise, or after which a tree that was given is
/// another one.
fn first_wrong_step(both: &mut Both, steps: &[Step]) -> Result<Option<usize>, AllocError> {
    for (at, step) in steps.iter().enumerate() {
        let told = is_done(both, step);
        if told == Ok(false) || !both.are_kept() {
            return Ok(Some(at));
        }
        told?;
    }
    Ok(None)
}

/// The same of a story on an empty tree, which is gone through so often.
fn first_wrong(alloc: Global, steps: &[Step], times: u64) -> Result<Option<usize>, AllocError> {
    let mut both = Both::new(alloc)?;
    for _ in 0..times {
        let wrong = first_wrong_step(&mut both, steps)?;
        if wrong.is_some() {
            return Ok(wrong);
        }
    }
    Ok(None)
}

#[test]
fn inserts_leave_these_nodes_and_fire_what_they_copy(rt: HostRuntime) -> Result<(), Fail> {
    none_wrong(rt.alloc(), first_wrong(rt.alloc(), &INSERTS, 1))
}

#[test]
fn deletes_leave_these_nodes_and_fire_what_goes(rt: HostRuntime) -> Result<(), Fail> {
    none_wrong(rt.alloc(), first_wrong(rt.alloc(), &DELETES, 1))
}

#[test]
fn a_prefix_takes_its_node_with_all_under_it(rt: HostRuntime) -> Result<(), Fail> {
    none_wrong(rt.alloc(), first_wrong(rt.alloc(), &PREFIXES, 1))
}

#[test]
fn walks_and_look_ups_give_these_rows(rt: HostRuntime) -> Result<(), Fail> {
    none_wrong(rt.alloc(), first_wrong(rt.alloc(), &WALKS, 1))
}

#[test]
fn a_transaction_that_gives_a_thousand_trees_owns_what_it_made_since(
    rt: HostRuntime,
) -> Result<(), Fail> {
    none_wrong(rt.alloc(), first_wrong(rt.alloc(), &OWNED, 1_000))
}

/// Whether a write of a story was refused, and nothing where one left what it shouldn't.
fn is_refused(alloc: Global, steps: &[Step]) -> Result<Option<bool>, AllocError> {
    let mut both = Both::new(alloc)?;
    match first_wrong_step(&mut both, steps) {
        Ok(None) => Ok(Some(false)),
        Ok(Some(_)) => Ok(None),
        Err(AllocError) if both.work.txn().spoiled() => Ok(Some(true)),
        Err(AllocError) => Err(AllocError),
    }
}

// Where an allocation fails it ends in an error, which tells a refused write.
#[test]
fn a_refused_write_leaves_the_given_trees(rt: HostRuntime) -> Result<(), Fail> {
    is_whole(is_refused(rt.alloc(), &REFUSED))
}
