//! What a walk keeps of the nodes on its way.
ghost use Rattle.std.specs.Prelude.{◌≡◌, ◌++◌, [], IfOk, OnOk, OnErr, drop, map, option_copied};
ghost use Rattle.std.specs.Prelude.{reverse};
ghost use Rattle.std.specs.Prelude.{if◌then◌else◌};
ghost use Rattle.std.specs.Ordering.{is_gt, is_lt};
ghost use Rattle.mdb_datum.specs.Bytes.{byte_order};
ghost use Rattle.mdb_datum.specs.Pairs.{first_item, rows_of};
ghost use Rattle.radix_node.specs.Node.{below_prefix, edge_node, nodes_in, plain_node};
ghost use Rattle.radix_node.specs.Nodes.{pairs_of, pairs_of_leaf, pairs_of_nodes};
ghost use Rattle.radix_iter.specs.inner.LevelRows.{rows_down, rows_up, level_pairs};

use crate::edges::edges_under;
use mdb_datum::Row;
use radix_node::{Edge, Leaf, Node};
use std::alloc::AllocError;

/// What is still to come of one node on the way of a walk: perhaps its leaf, and what is under some
/// of its edges.
#[derive(Clone, Copy)]
pub(crate) struct Level<'a> {
    pub(crate) own: Option<&'a Leaf>,
    pub(crate) edges: &'a [Edge],
}

/// The next row of levels, the last of which comes first: of each its leaf, and then what is under
/// its edges.
pub(crate) fn next_rising<'a>(levels: &mut Vec<Level<'a>>) -> Result<Option<&'a Row>, AllocError>
    ensures next { IfOk result (λ r. option_copied r ≡ first_item (reverse (rows_up levels.old.items))) }
    ensures rest { OnOk result
        (reverse (rows_up levels.new.items) ≡ drop 1 (reverse (rows_up levels.old.items))) }
    ensures unchanged { OnErr result (rows_up levels.new.items ≡ rows_up levels.old.items) }
{
    while let Some(level) = levels.last() {
        let Level { own, edges } = *level;
        match own {
            Some(leaf) => {
                let at = levels.len() - 1;
                levels[at] = Level { own: None, edges };
                return Ok(Some(leaf.row()));
            }
            None => match edges.split_first() {
                Some((edge, rest)) => {
                    let at = levels.len() - 1;
                    levels.push(level_of(edge.node()))?;
                    levels[at] = Level {
                        own: None,
                        edges: rest,
                    };
                }
                None => {
                    levels.pop();
                }
            },
        }
    }
    Ok(None)
}

/// The next row of levels, the last of which comes first: of each what is under its edges, from the
/// last one on, and then its leaf.
pub(crate) fn next_falling<'a>(levels: &mut Vec<Level<'a>>) -> Result<Option<&'a Row>, AllocError>
    ensures next { IfOk result (λ r. option_copied r ≡ first_item (reverse (rows_down levels.old.items))) }
    ensures rest { OnOk result
        (reverse (rows_down levels.new.items) ≡ drop 1 (reverse (rows_down levels.old.items))) }
    ensures unchanged { OnErr result (rows_down levels.new.items ≡ rows_down levels.old.items) }
{
    while let Some(level) = levels.last() {
        let Level { own, edges } = *level;
        match edges.split_last() {
            Some((edge, rest)) => {
                let at = levels.len() - 1;
                levels.push(level_of(edge.node()))?;
                levels[at] = Level { own, edges: rest };
            }
            None => match own {
                Some(leaf) => {
                    levels.pop();
                    return Ok(Some(leaf.row()));
                }
                None => {
                    levels.pop();
                }
            },
        }
    }
    Ok(None)
}

/// All of a node.
pub(crate) fn level_of(node: &Node) -> Level<'_>
    ensures pairs { level_pairs result ≡ pairs_of (below_prefix node.now) }
    ensures under { let n = plain_node node.now in
        nodes_in (map edge_node result.edges.now) ≡ n.under }
{
    Level {
        own: node.leaf(),
        edges: edges_under(node),
    }
}

/// Adds the levels of edges alone, for a walk upward.
pub(crate) fn push_edges<'a>(
    levels: &mut Vec<Level<'a>>,
    edges: &'a [Edge],
) -> Result<(), AllocError>
    ensures { IfOk result (λ _. rows_up levels.new.items
        ≡ rows_up levels.old.items
        ++ reverse (rows_of (pairs_of_nodes (nodes_in (map edge_node edges.now))))) }
{
    levels.push(Level { own: None, edges })?;
    Ok(())
}

/// Adds all of a node, for a walk upward.
pub(crate) fn push_up<'a>(levels: &mut Vec<Level<'a>>, node: &'a Node) -> Result<(), AllocError>
    ensures { IfOk result (λ _. rows_up levels.new.items
        ≡ rows_up levels.old.items ++ reverse (rows_of (pairs_of (below_prefix node.now)))) }
{
    levels.push(level_of(node))?;
    Ok(())
}

/// Adds all of a node, for a walk downward.
pub(crate) fn push_down<'a>(levels: &mut Vec<Level<'a>>, node: &'a Node) -> Result<(), AllocError>
    ensures { IfOk result (λ _. rows_down levels.new.items
        ≡ rows_down levels.old.items ++ rows_of (pairs_of (below_prefix node.now))) }
{
    levels.push(level_of(node))?;
    Ok(())
}

/// Adds a node's leaf alone, for a walk downward.
pub(crate) fn push_own<'a>(levels: &mut Vec<Level<'a>>, node: &'a Node) -> Result<(), AllocError>
    ensures { let n = plain_node node.now in IfOk result (λ _. rows_down levels.new.items
        ≡ rows_down levels.old.items ++ rows_of (pairs_of_leaf n.leaf)) }
{
    levels.push(Level {
        own: node.leaf(),
        edges: &[],
    })?;
    Ok(())
}

/// Adds what comes before the edge of a label: the node's leaf, and what is under `lower`, the
/// edges of lower labels.
pub(crate) fn push_before<'a>(
    levels: &mut Vec<Level<'a>>,
    node: &'a Node,
    lower: &'a [Edge],
) -> Result<(), AllocError>
    ensures { let n = plain_node node.now in IfOk result (λ _. rows_down levels.new.items
        ≡ rows_down levels.old.items
        ++ rows_of (pairs_of_leaf n.leaf ++ pairs_of_nodes (nodes_in (map edge_node lower.now)))) }
{
    levels.push(Level {
        own: node.leaf(),
        edges: lower,
    })?;
    Ok(())
}

/// Adds all of a node, if its prefix is above `rest`, for a walk upward.
pub(crate) fn push_if_higher<'a>(
    levels: &mut Vec<Level<'a>>,
    node: &'a Node,
    rest: &[u8],
) -> Result<(), AllocError>
    ensures { let n = plain_node node.now in
        IfOk result (λ _. rows_up levels.new.items ≡ rows_up levels.old.items ++ reverse (rows_of
        (if is_lt (byte_order rest.now n.prefix) then pairs_of (below_prefix node.now) else []))) }
{
    if rest < node.prefix() {
        push_up(levels, node)?;
    }
    Ok(())
}

/// Adds all of a node, if its prefix is below `rest`, for a walk downward.
pub(crate) fn push_if_lower<'a>(
    levels: &mut Vec<Level<'a>>,
    node: &'a Node,
    rest: &[u8],
) -> Result<(), AllocError>
    ensures { let n = plain_node node.now in
        IfOk result (λ _. rows_down levels.new.items ≡ rows_down levels.old.items ++ rows_of
        (if is_gt (byte_order rest.now n.prefix) then pairs_of (below_prefix node.now) else [])) }
{
    if node.prefix() < rest {
        push_down(levels, node)?;
    }
    Ok(())
}
