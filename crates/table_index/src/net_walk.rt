//! The walk of two trees side by side, over what differs.
ghost use Rattle.std.specs.Prelude.{◌≡◌, ◌++◌, [], List, IfOk, OnOk, Some};
ghost use Rattle.mdb_schema.specs.Net.{Net};
ghost use Rattle.mdb_schema.specs.NetOfPairs.{net_of_pairs, replaced};
ghost use Rattle.radix_node.specs.Cells.{plain_of};
ghost use Rattle.radix_node.specs.Nodes.{pairs_of};
ghost use Rattle.table_index.specs.Shared.{CellsTell};
ghost use Rattle.table_index.specs.inner.NetSteps.{AnswersStep};
ghost use Rattle.table_index.specs.inner.PiecesIn.{HoldTheSame};
ghost use Rattle.table_index.specs.inner.PiecesLeft.{pieces_at};
ghost use Rattle.table_index.specs.declared.pieces.Part.TheVariants as part;

use crate::net::NetList;
use crate::pieces::{Part, Pieces};
use mdb_datum::Row;
use radix_node::{Edge, Leaf, Tree};
use std::alloc::{AllocError, Global};
use std::cmp::Ordering;

/// The net of two trees. A piece that both have, by its cell, is passed over with all that is under
/// it. It takes memory for the list, and for the places in both trees.
pub(crate) fn net_of_trees(alloc: Global, old: &Tree, new: &Tree) -> Result<NetList, AllocError>
    requires { CellsTell old.now new.now }
    ensures { IfOk result (λ ns. ns
        ≡ net_of_pairs (pairs_of (plain_of old.now)) (pairs_of (plain_of new.now))) }
{
    let mut olds = Pieces::of(alloc, old.root())?;
    let mut news = Pieces::of(alloc, new.root())?;
    let mut net = NetList::new(alloc);
    'steps: while step(&mut olds, &mut news, &mut net)? {}
    Ok(net)
}

/// One step, if one of the trees has pieces left.
fn step(old: &mut Pieces<'_>, new: &mut Pieces<'_>, net: &mut NetList) -> Result<bool, AllocError>
    requires { HoldTheSame (pieces_at old.old) (pieces_at new.old) }
    ensures { IfOk result (λ more. AnswersStep more (pieces_at old.old) (pieces_at new.old) net.old
        (pieces_at old.new) (pieces_at new.new) net.new) }
{
    match old.first() {
        Some(one) => step_past(one, old, new, net),
        None => step_alone(old, new, net),
    }
}

/// One step where the old tree has pieces left.
fn step_past<'a>(
    one: Part<'a>,
    old: &mut Pieces<'a>,
    new: &mut Pieces<'_>,
    net: &mut NetList,
) -> Result<bool, AllocError>
    requires one { old.old.front ≡ Some one }
    requires shared { HoldTheSame (pieces_at old.old) (pieces_at new.old) }
    ensures { IfOk result (λ more. AnswersStep more (pieces_at old.old) (pieces_at new.old) net.old
        (pieces_at old.new) (pieces_at new.new) net.new) }
{
    match new.first() {
        Some(other) => step_both(one, other, old, new, net),
        None => step_old(one, old, new, net),
    }
}

/// One step where the old tree has no pieces left, if the new one has.
fn step_alone(
    old: &mut Pieces<'_>,
    new: &mut Pieces<'_>,
    net: &mut NetList,
) -> Result<bool, AllocError>
    requires { pieces_at old.old ≡ [] }
    ensures { IfOk result (λ more. AnswersStep more (pieces_at old.old) (pieces_at new.old) net.old
        (pieces_at old.new) (pieces_at new.new) net.new) }
{
    match new.first() {
        Some(other) => step_new(other, old, new, net),
        None => Ok(false),
    }
}

/// A step where the new tree has no pieces left: a leaf of the old one has gone.
fn step_old<'a>(
    one: Part<'a>,
    old: &mut Pieces<'a>,
    new: &mut Pieces<'_>,
    net: &mut NetList,
) -> Result<bool, AllocError>
    requires one { old.old.front ≡ Some one }
    requires end { pieces_at new.old ≡ [] }
    ensures { IfOk result (λ more. AnswersStep more (pieces_at old.old) (pieces_at new.old) net.old
        (pieces_at old.new) (pieces_at new.new) net.new) }
{
    match one {
        Part::Leaf(leaf) => {
            net.push(Some(leaf.row()), None)?;
            old.pass();
            Ok(true)
        }
        Part::Under(edge) => {
            old.enter(edge)?;
            Ok(true)
        }
    }
}

/// A step where the old tree has no pieces left: a leaf of the new one has come.
fn step_new<'a>(
    one: Part<'a>,
    old: &mut Pieces<'_>,
    new: &mut Pieces<'a>,
    net: &mut NetList,
) -> Result<bool, AllocError>
    requires one { new.old.front ≡ Some one }
    requires end { pieces_at old.old ≡ [] }
    ensures { IfOk result (λ more. AnswersStep more (pieces_at old.old) (pieces_at new.old) net.old
        (pieces_at old.new) (pieces_at new.new) net.new) }
{
    match one {
        Part::Leaf(leaf) => {
            net.push(None, Some(leaf.row()))?;
            new.pass();
            Ok(true)
        }
        Part::Under(edge) => {
            new.enter(edge)?;
            Ok(true)
        }
    }
}

/// A step where both trees have pieces left. One that both have is passed over.
fn step_both<'a, 'b>(
    one: Part<'a>,
    other: Part<'b>,
    old: &mut Pieces<'a>,
    new: &mut Pieces<'b>,
    net: &mut NetList,
) -> Result<bool, AllocError>
    requires one { old.old.front ≡ Some one }
    requires other { new.old.front ≡ Some other }
    requires shared { HoldTheSame (pieces_at old.old) (pieces_at new.old) }
    ensures { IfOk result (λ more. AnswersStep more (pieces_at old.old) (pieces_at new.old) net.old
        (pieces_at old.new) (pieces_at new.new) net.new) }
{
    if one.id() == other.id() {
        old.pass();
        new.pass();
        return Ok(true);
    }
    match one {
        Part::Leaf(leaf) => step_at_leaf(leaf, other, old, new, net),
        Part::Under(edge) => step_under(edge, other, old, new, net),
    }
}

/// A step where a leaf of the old tree comes first.
fn step_at_leaf<'a, 'b>(
    leaf: &'a Leaf,
    other: Part<'b>,
    old: &mut Pieces<'a>,
    new: &mut Pieces<'b>,
    net: &mut NetList,
) -> Result<bool, AllocError>
    requires one { old.old.front ≡ Some (part.Leaf leaf) }
    requires other { new.old.front ≡ Some other }
    ensures { IfOk result (λ more. AnswersStep more (pieces_at old.old) (pieces_at new.old) net.old
        (pieces_at old.new) (pieces_at new.new) net.new) }
{
    match other {
        Part::Leaf(beside) => step_leaves(leaf, beside, old, new, net),
        Part::Under(edge) => {
            new.enter(edge)?;
            Ok(true)
        }
    }
}

/// A step where a node of the old tree comes first, which is entered, as one of the new tree is.
fn step_under<'a, 'b>(
    edge: &'a Edge,
    other: Part<'b>,
    old: &mut Pieces<'a>,
    new: &mut Pieces<'b>,
    net: &mut NetList,
) -> Result<bool, AllocError>
    requires one { old.old.front ≡ Some (part.Under edge) }
    requires other { new.old.front ≡ Some other }
    ensures { IfOk result (λ more. AnswersStep more (pieces_at old.old) (pieces_at new.old) net.old
        (pieces_at old.new) (pieces_at new.new) net.new) }
{
    old.enter(edge)?;
    if let Part::Under(beside) = other {
        new.enter(beside)?;
    }
    Ok(true)
}

/// A step past two leaves, or past that of the lower key.
fn step_leaves<'a, 'b>(
    leaf: &'a Leaf,
    beside: &'b Leaf,
    old: &mut Pieces<'a>,
    new: &mut Pieces<'b>,
    net: &mut NetList,
) -> Result<bool, AllocError>
    requires one { old.old.front ≡ Some (part.Leaf leaf) }
    requires other { new.old.front ≡ Some (part.Leaf beside) }
    ensures { IfOk result (λ more. AnswersStep more (pieces_at old.old) (pieces_at new.old) net.old
        (pieces_at old.new) (pieces_at new.new) net.new) }
{
    match leaf.key().cmp(&beside.key()) {
        Ordering::Less => {
            net.push(Some(leaf.row()), None)?;
            old.pass();
            Ok(true)
        }
        Ordering::Greater => {
            net.push(None, Some(beside.row()))?;
            new.pass();
            Ok(true)
        }
        Ordering::Equal => {
            push_replaced(leaf.row(), beside.row(), net)?;
            old.pass();
            new.pass();
            Ok(true)
        }
    }
}

/// Adds the change of a row that another one replaces, unless both have the same members.
fn push_replaced(old: &Row, new: &Row, net: &mut NetList) -> Result<(), AllocError>
    ensures { OnOk result ((later : List Net)
        → net.new ++ later ≡ net.old ++ replaced old.now new.now later) }
{
    if old.has_same_members(new) {
        return Ok(());
    }
    net.push(Some(old), Some(new))
}
