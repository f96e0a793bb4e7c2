//! Graphs.

ghost use Rattle.std.specs.Prelude.{◌≡◌, ℕ, ◌<◌, ◌↔◌, [], ◌++◌, length, map, IfOk, OnOk, All, Contains, slice_index_or};
ghost use Rattle.static_calls.specs.Graph.{HasEdge, HasEdges, rows_of, with_edge, turned};

use out_of_memory::OutOfMemory;
use std::alloc::Global;
use std::marker::Model;

/// A graph: for each of its nodes, the numbers below a size, the nodes to which its edges lead.
#[derive(Drop)]
pub struct Graph {
    rows: Vec<Vec<usize>>,
}

impl Model for Graph {
    ghost use Rattle.std.specs.Prelude.{List, ℕ};
    ghost use Rattle.static_calls.specs.Graph.{rows_of, IsWithin};

    ghost Value = { List (List ℕ) };

    ghost view = { λ g. rows_of g.rows.items };

    ghost invariant = { λ g. IsWithin g.rows.items };
}

/// Adds an edge.
fn add(rows: &mut [Vec<usize>], from: usize, to: usize) -> Result<(), OutOfMemory>
    requires { from < length rows.old }
    ensures { OnOk result (rows_of rows.new ≡ with_edge (rows_of rows.old) from to) }
{
    let row = &mut rows[from];
    row.push(to)?;
    Ok(())
}

/// The rows of a graph that has no edge.
fn no_edges(alloc: Global, size: usize) -> Result<Vec<Vec<usize>>, OutOfMemory>
    ensures size { IfOk result (λ rows. length rows.items ≡ size) }
    ensures none { IfOk result (λ rows. All (λ row. row.items ≡ []) rows.items) }
{
    let mut rows = Vec::new(alloc);
    for _node in 0..size {
        rows.push(Vec::new(alloc))?;
    }
    Ok(rows)
}

/// Lists the edges of a node, each turned round.
fn turn_row(edges: &mut Vec<(usize, usize)>, node: usize, row: &[usize]) -> Result<(), OutOfMemory>
    ensures { OnOk result (edges.new.items ≡ edges.old.items ++ map (turned node) row.now) }
{
    for to in row {
        edges.push((*to, node))?;
    }
    Ok(())
}

impl Graph {
    /// The graph of that size with these edges.
    pub fn new(alloc: Global, size: usize, edges: &[(usize, usize)]) -> Result<Graph, OutOfMemory>
        requires { All (λ e. (e.0 < size) × (e.1 < size)) edges.now }
        ensures size { IfOk result (λ g. length g ≡ size) }
        ensures edges { IfOk result (λ g. HasEdges g edges.now) }
    {
        let mut rows = no_edges(alloc, size)?;
        for (from, to) in edges {
            add(&mut rows, *from, *to)?;
        }
        Ok(Graph { rows })
    }

    /// How many nodes it has.
    pub fn size(&self) -> usize
        ensures { result ≡ length self.now }
    {
        self.rows.len()
    }

    /// Where the edges of a node lead.
    pub fn row(&self, node: usize) -> &[usize]
        ensures row { result.now ≡ slice_index_or self.now node [] }
        ensures within { All (λ to. to < length self.now) result.now }
    {
        match self.rows.get(node) {
            Some(row) => row.as_slice(),
            None => &[],
        }
    }

    /// The edges, each turned round.
    fn turned_edges(&self, alloc: Global) -> Result<Vec<(usize, usize)>, OutOfMemory>
        ensures within { IfOk result (λ edges.
            All (λ e. (e.0 < length self.now) × (e.1 < length self.now)) edges.items) }
        ensures turned { IfOk result (λ edges. (a b : ℕ) →
            Contains edges.items (b, a) ↔ HasEdge self.now a b) }
    {
        let mut edges = Vec::new(alloc);
        for node in 0..self.size() {
            turn_row(&mut edges, node, self.row(node))?;
        }
        Ok(edges)
    }

    /// The graph with each edge turned round.
    pub fn turned(&self, alloc: Global) -> Result<Graph, OutOfMemory>
        ensures size { IfOk result (λ g. length g ≡ length self.now) }
        ensures edges { IfOk result (λ g. (a b : ℕ) → HasEdge g b a ↔ HasEdge self.now a b) }
    {
        let edges = self.turned_edges(alloc)?;
        let turned = Graph::new(alloc, self.size(), edges.as_slice())?;
        Ok(turned)
    }
}
