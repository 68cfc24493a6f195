//! Look-ups and walks. What each must give is worked out by hand, in stories, or is the list of the
//! sorted keys, filtered.
use crate::txns::both::{Both, Pair, Told};
use crate::txns::written::number_of;
use mdb_datum::Row;
use radix_iter::{Walk, ascend, descend, down_from, first, from_key, last, one};
use radix_node::Tree;
use std::alloc::{AllocError, Global};

/// What is asked of a tree with a key, a prefix or a bound: four walks, and four rows that are lent.
pub enum Ask {
    Ascend,
    Descend,
    FromKey,
    DownFrom,
    First,
    Last,
    Longest,
    Get,
}

static ASKS: [Ask; 8] = [
    Ask::Ascend,
    Ask::Descend,
    Ask::FromKey,
    Ask::DownFrom,
    Ask::First,
    Ask::Last,
    Ask::Longest,
    Ask::Get,
];

/// The row that is lent.
fn lent<'a>(tree: &'a Tree, ask: &Ask, key: &[u8]) -> Option<&'a Row> {
    match ask {
        Ask::First => first(tree, key),
        Ask::Last => last(tree, key),
        Ask::Longest => tree.longest(key),
        _ => tree.get(key),
    }
}

/// The walk that is asked for.
fn walk<'a>(tree: &'a Tree, ask: &Ask, key: &[u8]) -> Result<Walk<'a>, AllocError> {
    match ask {
        Ask::Ascend => ascend(tree, key),
        Ask::Descend => descend(tree, key),
        Ask::FromKey => from_key(tree, key),
        Ask::DownFrom => down_from(tree, key),
        _ => Ok(one(lent(tree, ask, key))),
    }
}

/// The number of the next row, which is lent or has an owner more, and `None` at the end.
fn next_number(walk: &mut Walk<'_>, is_lent: bool) -> Result<Option<i128>, AllocError> {
    if is_lent {
        return Ok(number_of(walk.next_borrowed()?));
    }
    let row = walk.next()?;
    Ok(number_of(row.as_ref()))
}

/// Whether the next row of a walk is that of a number. A walk that refuses once is asked again, in
/// the other way.
fn gives_next(walk: &mut Walk<'_>, is_lent: bool, number: Option<i128>) -> Told {
    match next_number(walk, is_lent) {
        Err(AllocError) => Ok(next_number(walk, !is_lent)? == number),
        Ok(next) => Ok(next == number),
    }
}

/// Whether a walk gives the rows of these numbers, and then the end twice, and another one that is
/// left half way gives the first half of them beside it. Each lends every second row, and the other
/// one those between.
fn give_each(walk: &mut Walk<'_>, left: &mut Walk<'_>, numbers: &[i128]) -> Told {
    for (at, number) in numbers.iter().enumerate() {
        let (is_lent, goes) = (at % 2 == 0, at < numbers.len() / 2);
        if !gives_next(walk, is_lent, Some(*number))?
            || goes && !gives_next(left, !is_lent, Some(*number))?
        {
            return Ok(false);
        }
    }
    Ok(gives_next(walk, true, None)? && gives_next(walk, false, None)?)
}

/// Whether what is asked gives the rows of these numbers.
pub fn gives(tree: &Tree, ask: &Ask, key: &[u8], numbers: &[i128]) -> Told {
    let mut whole = walk(tree, ask, key)?;
    let mut left = walk(tree, ask, key)?;
    give_each(&mut whole, &mut left, numbers)
}

// ---- as the sorted keys say

/// Whether a key is one whose row is asked for, or the row is the first of these.
fn is_asked(ask: &Ask, asked: &[u8], key: &[u8]) -> bool {
    match ask {
        Ask::Ascend | Ask::Descend | Ask::First | Ask::Last => key.starts_with(asked),
        Ask::FromKey => key >= asked,
        Ask::DownFrom => key <= asked,
        Ask::Longest => asked.starts_with(key),
        Ask::Get => key == asked,
    }
}

/// The numbers of the sorted keys whose rows must be given.
fn numbers_of(
    alloc: Global,
    pairs: &[Pair],
    ask: &Ask,
    asked: &[u8],
) -> Result<Vec<i128>, AllocError> {
    let mut numbers = Vec::new(alloc);
    for (key, number) in pairs {
        if is_asked(ask, asked, key) {
            numbers.push(*number)?;
        }
    }
    if matches!(ask, Ask::Descend | Ask::DownFrom | Ask::Last | Ask::Longest) {
        numbers.reverse();
    }
    if matches!(ask, Ask::First | Ask::Last | Ask::Longest) {
        numbers.truncate(1);
    }
    Ok(numbers)
}

/// Whether what is asked gives the rows of the keys that it must give.
fn is_filter(alloc: Global, tree: &Tree, pairs: &[Pair], ask: &Ask, asked: &[u8]) -> Told {
    let numbers = numbers_of(alloc, pairs, ask, asked)?;
    gives(tree, ask, asked, &numbers)
}

/// Whether all that may be asked with a key gives them.
fn are_filters(alloc: Global, tree: &Tree, pairs: &[Pair], asked: &[u8]) -> Told {
    for ask in &ASKS {
        if !is_filter(alloc, tree, pairs, ask, asked)? {
            return Ok(false);
        }
    }
    Ok(true)
}

/// The same with each of some bounds, in a tree of sorted keys.
pub fn are_all_filters(alloc: Global, tree: &Tree, pairs: &[Pair], bounds: &[&[u8]]) -> Told {
    for bound in bounds {
        if !are_filters(alloc, tree, pairs, bound)? {
            return Ok(false);
        }
    }
    Ok(true)
}

/// The same of the present tree and its map.
pub fn are_asked(both: &Both, bounds: &[&[u8]]) -> Told {
    let pairs = both.pairs()?;
    are_all_filters(both.alloc(), both.tree(), &pairs, bounds)
}

/// The first key after a key: one byte 00 more.
fn key_after(alloc: Global, key: &[u8]) -> Result<Vec<u8>, AllocError> {
    let mut after = Vec::from_slice(alloc, key)?;
    after.push(0)?;
    Ok(after)
}

/// Makes the first key after a key one before it: without the last byte, if that is 00, and else with
/// a lower one in its place.
fn lower(after: &mut Vec<u8>) {
    after.pop();
    if after.ends_with(b"\0") {
        after.pop();
    } else if let Some(last) = after.last_mut() {
        *last = last.wrapping_sub(1);
    }
}

/// Whether all that may be asked at a key of sorted ones, after it and before it gives the rows that
/// it must.
fn are_asked_at(both: &Both, pairs: &[Pair], key: &[u8]) -> Told {
    let (alloc, tree) = (both.alloc(), both.tree());
    let mut beside = key_after(alloc, key)?;
    let told = are_filters(alloc, tree, pairs, key)? && are_filters(alloc, tree, pairs, &beside)?;
    lower(&mut beside);
    Ok(told && are_filters(alloc, tree, pairs, &beside)?)
}

/// The same of each key.
pub fn are_asked_around(both: &Both) -> Told {
    let pairs = both.pairs()?;
    for (key, _) in &pairs {
        if !are_asked_at(both, &pairs, key)? {
            return Ok(false);
        }
    }
    Ok(true)
}
