//! A tree as deep as keys are long: one key for each number of letters from none to 2,048. The
//! writes before the first tree is given change their path in place, and those after it copy it.
use super::both::{Pair, Told};
use super::written::{Work, row};
use crate::ending::holds;
use crate::walks::are_all_filters;
use mdb_datum::Row;
use radix_node::Tree;
use std::alloc::{AllocError, Global};
use std::test::Fail;
use std::thread::{Threads, join, spawn};

/// The longest key, whose prefixes are the deepest tree.
static LETTERS: [u8; 2048] = [b'a'; 2048];

/// Puts all the keys, the shortest or the longest first, each with its length for its number.
fn put_all(work: &mut Work, longest_first: bool) -> Result<(), AllocError> {
    for turn in 0..=2048usize {
        let len = if longest_first { 2048 - turn } else { turn };
        work.put(&LETTERS[..len], len as i128)?;
    }
    Ok(())
}

/// Puts all the keys, takes out the deepest one and puts it again, with this row and no tree given in
/// between; tells whether it was there.
fn is_put(work: &mut Work, row: &Row, longest_first: bool) -> Told {
    put_all(work, longest_first)?;
    let taken = work.take(&LETTERS)?;
    let old = work.put_row(&LETTERS, row)?;
    Ok(taken == Some(2048) && old.is_none())
}

/// Takes out the deepest key, and then the 1,024 that have 1,024 letters or more; tells whether all
/// were there.
fn is_cut(work: &mut Work) -> Told {
    let taken = work.take(&LETTERS)?;
    let count = work.take_all(&LETTERS[..1024])?;
    Ok(taken == Some(7) && count == 1024 && work.txn().len() == 1024)
}

/// The keys with their numbers, where the longest one has this number.
fn pairs_of(alloc: Global, last: i128) -> Result<Vec<Pair>, AllocError> {
    let mut pairs = Vec::new(alloc);
    for len in 0..=2048usize {
        let number = if len < 2048 { len as i128 } else { last };
        pairs.push((&LETTERS[..len], number))?;
    }
    Ok(pairs)
}

/// Whether a tree has as many nodes as keys, and what is asked of it gives the rows that it must.
fn is_deep(alloc: Global, tree: &Tree, last: i128) -> Told {
    let pairs = pairs_of(alloc, last)?;
    Ok(
        tree.len() == 2049
            && tree.root().count() == 2049
            && are_all_filters(alloc, tree, &pairs, &[b"", &LETTERS])?,
    )
}

/// Whether the tree is as deep, and its look-ups and deletes are right.
fn goes_deep(alloc: Global, work: &mut Work, row: &Row, longest_first: bool) -> Told {
    let put = is_put(work, row, longest_first)?;
    let tree = work.stand()?;
    Ok(put && is_cut(work)? && is_deep(alloc, &tree, 7)?)
}

/// The same in a new transaction, with a row of the number 7. Both trees are dropped.
fn deep_run(alloc: Global, row: &Row, longest_first: bool) -> Told {
    goes_deep(alloc, &mut Work::new(alloc)?, row, longest_first)
}

/// The same on the main stack with a new row, the shortest key first and the longest one.
fn deep_runs_here(alloc: Global) -> Told {
    let row = row(alloc, 7)?;
    Ok(deep_run(alloc, &row, false)? && deep_run(alloc, &row, true)?)
}

#[test]
fn a_tree_may_be_2049_nodes_deep(rt: HostRuntime) -> Result<(), Fail> {
    holds(deep_runs_here(rt.alloc()))
}

/// Two deep runs on threads, one of a row that is lent and one of a row that is moved there.
fn deep_runs<R: Threads + Sync>(rt: &R, alloc: Global, lent: &Row, moved: Row) -> Told {
    let (grown, split) = join(
        rt,
        || deep_run(alloc, lent, false),
        move || deep_run(alloc, &moved, true),
    );
    Ok(grown? && split?)
}

/// The same of two owners of a row.
fn deep_runs_of_one<R: Threads + Sync>(rt: &R, alloc: Global) -> Told {
    let row = row(alloc, 7)?;
    deep_runs(rt, alloc, &row, row.share()?)
}

#[test]
fn a_deep_tree_may_be_made_in_a_thread(rt: HostRuntime) -> Result<(), Fail> {
    holds(deep_runs_of_one(&rt, rt.alloc()))
}

/// The deepest tree.
fn deepest(alloc: Global) -> Result<Tree, AllocError> {
    let mut work = Work::new(alloc)?;
    put_all(&mut work, true)?;
    work.stand()
}

/// Whether that tree is as deep in a thread, which is its only owner, and lets go of its nodes. That
/// there is no thread counts as want of memory.
fn is_deep_elsewhere<R: Threads>(rt: &R, alloc: Global) -> Told {
    let tree = deepest(alloc)?;
    match spawn(rt, move || is_deep(alloc, &tree, 2048)) {
        Ok(child) => child.join(rt),
        Err(_) => Err(AllocError),
    }
}

#[test]
fn walks_go_deep_in_a_thread(rt: HostRuntime) -> Result<(), Fail> {
    holds(is_deep_elsewhere(&rt, rt.alloc()))
}
