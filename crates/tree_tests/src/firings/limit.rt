//! Notices at the limit of cells that are listed, and beyond it.
//!
//! A tree has the empty key or another one, and 227 keys of two bytes for each of some first bytes.
//! So it has two cells at its root, and for each first byte 455: a node's, and two for each key
//! below it.
ghost use Rattle.std.specs.Prelude.{◌≡◌, ◌*◌, ◌≤◌, length};
ghost use Rattle.radix_node.specs.Cells.{AreCellsOf, AreOf};

use super::has_moved;
use crate::ending::holds;
use crate::txns::both::Told;
use crate::txns::written::Work;
use notify_walk::fire_all;
use radix_node::Tree;
use radix_txn::Notice;
use std::alloc::{AllocError, Global};
use std::test::Fail;
use watch_word::Front;

/// How many keys have one first byte.
const SECONDS: u64 = 227;

/// The key of a number.
fn key(number: u64) -> [u8; 2]
    requires { number ≤ 20000 }
{
    [(number / SECONDS) as u8, (number % SECONDS) as u8]
}

/// Puts a key, and then those of so many first bytes.
fn put_firsts(work: &mut Work, lone: &[u8], firsts: u64) -> Result<(), AllocError> {
    if firsts > 64 {
        return Err(AllocError);
    }
    work.put(lone, 0)?;
    for number in 0..firsts * SECONDS {
        work.put(&key(number), 1)?;
    }
    Ok(())
}

/// Takes out the keys that begin with one of these.
fn take_each(work: &mut Work, prefixes: &[&[u8]]) -> Result<(), AllocError>
    ensures { work.new.start ≡ work.old.start }
{
    for prefix in prefixes {
        work.take_all(prefix)?;
    }
    Ok(())
}

/// Whether the watch of a key's look-up has moved.
fn key_moved(tree: &Tree, key: &[u8], front: &Front) -> Result<bool, AllocError>
    requires { AreOf front.now.book tree.now }
{
    // Brings the tree's shape into the proof.
    let _ = tree.root();
    has_moved(tree.get_watch(key).0, front)
}

/// Whether the watch of a prefix has.
fn prefix_moved(tree: &Tree, prefix: &[u8], front: &Front) -> Result<bool, AllocError>
    requires { AreOf front.now.book tree.now }
{
    // Brings the tree's shape into the proof.
    let _ = tree.root();
    has_moved(tree.seek_watch(prefix), front)
}

/// How many watches of the keys with some numbers have moved, of their look-ups and as prefixes.
fn count_moved(tree: &Tree, from: u64, to: u64, front: &Front) -> Result<u64, AllocError>
    requires of { AreOf front.now.book tree.now }
    requires few { to ≤ 20000 }
{
    let mut count = 0;
    for number in from..to {
        let key = key(number);
        if key_moved(tree, &key, front)? {
            count += 1;
        }
        if prefix_moved(tree, &key, front)? {
            count += 1;
        }
    }
    Ok(count)
}

/// Whether a notice lists so many cells, and else has trees.
fn lists(notice: &Notice, count: Option<u32>) -> bool {
    notice.listed() == count && notice.trees().is_some() == count.is_none()
}

/// Whether, after the firing of a notice, both watches of each key of some first bytes have moved,
/// and none of those of the others.
fn fires_firsts(
    old: &Tree,
    notice: &Notice,
    front: &Front,
    gone: u64,
    firsts: u64,
) -> Result<bool, AllocError>
    requires of { AreOf front.now.book old.now }
    requires cells { AreCellsOf front.now.book notice.now }
    requires within { gone ≤ firsts }
    requires few { firsts ≤ 64 }
{
    let log = fire_all(notice, front, 1, &mut false);
    let moved = count_moved(old, 0, gone * SECONDS, &log)?;
    let others = count_moved(old, gone * SECONDS, firsts * SECONDS, &log)?;
    Ok(moved == 2 * gone * SECONDS && others == 0)
}

/// A lone key, and how many first bytes have keys beside it; the prefixes of keys that go, and how many
/// first bytes have none then; and how many cells the notice lists.
type Case = (
    &'static [u8],
    u64,
    &'static [&'static [u8]],
    u64,
    Option<u32>,
);

static CASES: [Case; 3] = [
    // all keys
    (b"", 18, &[b""], 18, Some(8_192)),
    // and one cell more
    (b"\x12", 18, &[b""], 18, None),
    // a walk fires what has left alone
    (
        b"",
        36,
        &[
            b"\x00", b"\x01", b"\x02", b"\x03", b"\x04", b"\x05", b"\x06", b"\x07", b"\x08",
            b"\x09", b"\x0a", b"\x0b", b"\x0c", b"\x0d", b"\x0e", b"\x0f", b"\x10", b"\x11",
            b"\x12",
        ],
        19,
        None,
    ),
];

/// Whether a transaction on a tree with the keys of a case ends with a notice that lists so many cells,
/// and fires the watches of what has gone alone.
fn ends_so(work: Work, old: &Tree, case: &Case) -> Told
    requires begun { old.now ≡ work.start }
{
    let (_, firsts, _, gone, listed) = *case;
    let (_, notice, front) = work.freeze()?;
    if gone > firsts || firsts > 64 {
        return Ok(false);
    }
    Ok(lists(&notice, listed) && fires_firsts(old, &notice, &front, gone, firsts)?)
}

/// Whether it is so where those keys go.
fn is_right(alloc: Global, case: &Case) -> Told {
    let mut work = Work::new(alloc)?;
    put_firsts(&mut work, case.0, case.1)?;
    let old = work.begin()?;
    take_each(&mut work, case.2)?;
    ends_so(work, &old, case)
}

#[test]
fn a_notice_lists_8192_cells(rt: HostRuntime) -> Result<(), Fail> {
    holds(is_right(rt.alloc(), &CASES[0]))
}

#[test]
fn one_cell_more_is_found_by_a_walk(rt: HostRuntime) -> Result<(), Fail> {
    holds(is_right(rt.alloc(), &CASES[1]))
}

#[test]
fn a_walk_fires_what_has_left_alone(rt: HostRuntime) -> Result<(), Fail> {
    holds(is_right(rt.alloc(), &CASES[2]))
}
