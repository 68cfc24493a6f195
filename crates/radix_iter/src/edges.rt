//! Edges of a node as slices, whose nodes a walk goes down to.
ghost use Rattle.std.specs.Prelude.{◌≡◌, map, option_map};
ghost use Rattle.radix_node.specs.Edges.{EdgesRise};
ghost use Rattle.radix_node.specs.Node.{edge_node, edge_of, labelled, nodes_in, plain_node};
ghost use Rattle.radix_iter.specs.inner.Beside.{higher, lower};

use radix_node::{Edge, Node};

/// All edges of a node.
pub fn edges_under(node: &Node) -> &[Edge]
    ensures { let n = plain_node node.now in nodes_in (map edge_node result.now) ≡ n.under }
{
    node.edges().iter().as_slice()
}

/// The edges of lower labels, the node at the edge of a label, if there is one, and the edges of
/// higher labels. They are found by one search, in the logarithm of the number of edges.
pub fn split_at_label(node: &Node, label: u8) -> (&[Edge], Option<&Node>, &[Edge])
    requires { let n = plain_node node.now in EdgesRise n.under }
    ensures lower { let n = plain_node node.now in
        nodes_in (map edge_node result.0.now) ≡ lower label n.under }
    ensures child { let n = plain_node node.now in
        option_map (λ m. labelled (record { label = label; node = plain_node m.now })) result.1
        ≡ edge_of label n.under }
    ensures higher { let n = plain_node node.now in
        nodes_in (map edge_node result.2.now) ≡ higher label n.under }
{
    let edges = node.edges();
    let all = edges.iter().as_slice();
    match edges.find_edge(label) {
        Ok((at, edge)) => (
            all.split_at(at).0,
            Some(edge.node()),
            all.split_at(at + 1).1,
        ),
        Err(at) => {
            let (lower, higher) = all.split_at(at);
            (lower, None, higher)
        }
    }
}
