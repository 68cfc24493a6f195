//! The edges of a node.
ghost use Rattle.std.specs.Prelude.{◌≡◌, ◌++◌, ◌∷◌, ◌+◌, ◌≤◌, ◌<◌, [], IfOk, IfErr, OnOk, OnErr};
ghost use Rattle.std.specs.Prelude.{Some, Ok, Err, length, take, drop, map, option_map};
ghost use Rattle.std.specs.Borrow.{sem};
ghost use Rattle.std.specs.Slice.Iter.{iter_rest};
ghost use Rattle.std.specs.List.{slice_get};
ghost use Rattle.radix_node.specs.CellNode.{cell_edges, cell_put, led_node};
ghost use Rattle.radix_node.specs.Edges.{EdgesRise, place_of, edge_put};
ghost use Rattle.radix_node.specs.Lending.{LendsEdge};
ghost use Rattle.radix_node.specs.Node.{nodes_in, edges_of, edge_node, edge_of, plain_edge};

use crate::edge::Edge;
use std::alloc::{AllocError, Global};
use std::mem;
use std::slice::Iter;

/// The edges of a node, in one array, whose labels rise.
#[cycle(node)]
#[derive(Drop)]
pub struct Edges {
    pub(crate) edges: Vec<Edge>,
}

#[tactic(auto, using(crate::proofs::Levels::edges_out, crate::proofs::Levels::edges_roll, crate::proofs::CellLevels::cell_edges_out, crate::proofs::CellLevels::cell_edges_roll))]
impl Edges {
    /// No edges. It takes no memory; later ones are put where `alloc` says.
    pub fn new(alloc: Global) -> Edges
        ensures edges { edges_of result ≡ [] }
        ensures cells { cell_edges result ≡ [] }
    {
        Edges {
            edges: Vec::new(alloc),
        }
    }

    /// The allocator of the edges.
    pub fn allocator(&self) -> Global {
        *self.edges.allocator()
    }

    /// How many edges there are.
    pub fn len(&self) -> usize
        ensures { result ≡ length (edges_of self.now) }
    {
        self.edges.len()
    }

    /// The edges, in the order of their labels.
    pub fn iter(&self) -> Iter<'_, Edge>
        ensures edges { map edge_node (iter_rest result) ≡ edges_of self.now }
        ensures cells { map led_node (iter_rest result) ≡ cell_edges self.now }
    {
        self.edges.iter()
    }

    /// The edge at a place, counted from 0, if there is such a place.
    pub fn get(&self, at: usize) -> Option<&Edge>
        ensures edge { option_map (λ e. edge_node e.now) result ≡ slice_get (edges_of self.now) at }
        ensures cells { option_map (λ e. led_node e.now) result
            ≡ slice_get (cell_edges self.now) at }
    {
        if at < self.edges.len() {
            Some(&self.edges[at])
        } else {
            None
        }
    }

    /// The place of the edge of a label, or else the place where it would go. It takes time in the
    /// logarithm of the number of edges.
    pub fn find(&self, label: u8) -> Result<usize, usize>
        requires rising { EdgesRise (nodes_in (edges_of self.now)) }
        ensures { result ≡ place_of label (edges_of self.now) }
    {
        self.edges.binary_search_by(|edge| edge.label().cmp(&label))
    }

    /// The edge of a label with its place, or else the place where it would go. It takes time in
    /// the logarithm of the number of edges.
    pub fn find_edge(&self, label: u8) -> Result<(usize, &Edge), usize>
        requires rising { EdgesRise (nodes_in (edges_of self.now)) }
        ensures edge { IfOk result
            (λ r. slice_get (edges_of self.now) r.0 ≡ Some (edge_node r.1.now)) }
        ensures cells { IfOk result
            (λ r. slice_get (cell_edges self.now) r.0 ≡ Some (led_node r.1.now)) }
        ensures place { IfOk result (λ r. Ok r.0 ≡ place_of label (edges_of self.now)) }
        ensures gap { IfErr result (λ at. Err at ≡ place_of label (edges_of self.now)) }
    {
        match self.find(label) {
            Ok(at) => Ok((at, &self.edges[at])),
            Err(at) => Err(at),
        }
    }

    /// The edge at a place, to be changed.
    pub fn edge_mut(&mut self, at: usize) -> &mut Edge
        requires { at < length (edges_of self.old) }
        ensures* writes_back { sem 𝓛 (LendsEdge self.entry at result) }
        ensures edge { slice_get (edges_of self.old) at ≡ Some (edge_node result.now) }
        ensures cells { slice_get (cell_edges self.old) at ≡ Some (led_node result.now) }
    {
        &mut self.edges[at]
    }

    /// Puts an edge at a place, before those from there on. It takes memory where there is no room
    /// for one edge more, and only for want of it, it is refused.
    pub fn insert(&mut self, at: usize, edge: Edge) -> Result<(), AllocError>
        requires { at ≤ length (edges_of self.old) }
        ensures edges { OnOk result (edges_of self.new
            ≡ take at (edges_of self.old) ++ edge_node edge ∷ drop at (edges_of self.old)) }
        ensures cells { OnOk result (cell_edges self.new
            ≡ take at (cell_edges self.old) ++ led_node edge ∷ drop at (cell_edges self.old)) }
        ensures unchanged { OnErr result (edges_of self.new ≡ edges_of self.old) }
        ensures unchanged_cells { OnErr result (cell_edges self.new ≡ cell_edges self.old) }
    {
        self.edges.insert(at, edge)?;
        Ok(())
    }

    /// Puts an edge in the place of its label, and gives the one that was there. It takes memory
    /// where there is no room for one edge more, and only for want of it, it is refused.
    pub fn put(&mut self, edge: Edge) -> Result<Option<Edge>, AllocError>
        requires rising { EdgesRise (nodes_in (edges_of self.old)) }

        ensures put { OnOk result
            (edges_of self.new ≡ edge_put (edge_node edge) (edges_of self.old)) }
        ensures cells { OnOk result
            (cell_edges self.new ≡ cell_put (led_node edge) (cell_edges self.old)) }
        ensures old { IfOk result (λ old. let e = plain_edge edge in
            option_map edge_node old ≡ edge_of e.label (nodes_in (edges_of self.old))) }
        ensures rising { EdgesRise (nodes_in (edges_of self.new)) }

        ensures unchanged { OnErr result (edges_of self.new ≡ edges_of self.old) }
        ensures unchanged_cells { OnErr result (cell_edges self.new ≡ cell_edges self.old) }
    {
        match self.find(edge.label()) {
            Ok(at) => Ok(Some(mem::replace(&mut self.edges[at], edge))),
            Err(at) => {
                self.edges.insert(at, edge)?;
                Ok(None)
            }
        }
    }

    /// A copy of the edges, which shares the nodes, with `edge` in place of those from `start` to
    /// `end`. It takes the memory for the list once, and is refused only for want of it, or of room
    /// to count one more owner of a node.
    pub fn spliced(&self, start: usize, end: usize, edge: Edge) -> Result<Edges, AllocError>
        requires ordered { start ≤ end }
        requires in_range { end ≤ length (edges_of self.now) }
        ensures edges { IfOk result (λ e. edges_of e
            ≡ take start (edges_of self.now) ++ edge_node edge ∷ drop end (edges_of self.now)) }
        ensures cells { IfOk result (λ e. cell_edges e
            ≡ take start (cell_edges self.now) ++ led_node edge ∷ drop end (cell_edges self.now)) }
    {
        let room = self.edges.len() - (end - start) + 1;
        let mut edges = Vec::with_capacity(self.allocator(), room)?;
        push_around(&mut edges, &self.edges[..start], edge, &self.edges[end..])?;
        Ok(Edges { edges })
    }

    /// A copy of the edges, which shares the nodes, without the one at a place. It takes the memory
    /// for the list once, and is refused as [`Edges::spliced`] is.
    pub fn without(&self, at: usize) -> Result<Edges, AllocError>
        requires { at < length (edges_of self.now) }
        ensures edges { IfOk result (λ e. edges_of e
            ≡ take at (edges_of self.now) ++ drop (at + 1) (edges_of self.now)) }
        ensures cells { IfOk result (λ e. cell_edges e
            ≡ take at (cell_edges self.now) ++ drop (at + 1) (cell_edges self.now)) }
    {
        let mut edges = Vec::with_capacity(self.allocator(), self.edges.len() - 1)?;
        push_shared(&mut edges, &self.edges[..at])?;
        push_shared(&mut edges, &self.edges[at + 1..])?;
        Ok(Edges { edges })
    }

    /// A copy of the edges, which shares the nodes. It takes the memory for the list once, and is
    /// refused as [`Edges::spliced`] is.
    pub fn share(&self) -> Result<Edges, AllocError>
        ensures edges { IfOk result (λ e. edges_of e ≡ edges_of self.now) }
        ensures cells { IfOk result (λ e. cell_edges e ≡ cell_edges self.now) }
    {
        let mut edges = Vec::with_capacity(self.allocator(), self.edges.len())?;
        push_shared(&mut edges, &self.edges)?;
        Ok(Edges { edges })
    }
}

/// Adds second owners of the front edges' nodes at the end, then the edge, and then second owners
/// of the back edges' nodes.
fn push_around(
    into: &mut Vec<Edge>,
    front: &[Edge],
    edge: Edge,
    back: &[Edge],
) -> Result<(), AllocError>
    ensures edges { IfOk result (λ _. map edge_node into.new.items
        ≡ map edge_node into.old.items ++ map edge_node front.now
        ++ edge_node edge ∷ map edge_node back.now) }
    ensures cells { IfOk result (λ _. map led_node into.new.items
        ≡ map led_node into.old.items ++ map led_node front.now
        ++ led_node edge ∷ map led_node back.now) }
{
    push_shared(into, front)?;
    into.push(edge)?;
    push_shared(into, back)
}

/// Adds second owners of the edges' nodes at the end.
fn push_shared(into: &mut Vec<Edge>, edges: &[Edge]) -> Result<(), AllocError>
    ensures edges { IfOk result (λ _. map edge_node into.new.items
        ≡ map edge_node into.old.items ++ map edge_node edges.now) }
    ensures cells { IfOk result (λ _. map led_node into.new.items
        ≡ map led_node into.old.items ++ map led_node edges.now) }
{
    for edge in edges {
        into.push(edge.share()?)?;
    }
    Ok(())
}
