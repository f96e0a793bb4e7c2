//! Nodes that reach themselves.

ghost use Rattle.std.specs.Prelude.{◌≡◌, ℕ, ◌<◌, ◌≤◌, ◌↔◌, ◌==◌, length, IfOk, IsTrue, All, slice_index};
ghost use Rattle.std.specs.List.{list_any};
ghost use Rattle.static_calls.specs.Graph.{Graph as SpecGraph, HasEdge, Reaches, MarksRounds};

use crate::graph::Graph;
use crate::reach::is_marked;
use crate::walk::numbers;
use out_of_memory::OutOfMemory;
use std::alloc::Global;
use std::marker::Model;

/// A graph of which it is known which nodes may reach themselves.
#[derive(Drop)]
pub struct Cycles {
    graph: Graph,
    suspects: Vec<bool>,
}

impl Model for Cycles {
    ghost use Rattle.std.specs.Prelude.{List, ℕ};
    ghost use Rattle.static_calls.specs.Graph.{MarksRounds};

    ghost Value = { List (List ℕ) };

    ghost view = { λ c. c.graph };

    ghost invariant = { λ c. MarksRounds c.suspects.items c.graph };
}

/// The number of a node, 0 where there is none.
fn number(numbers: &[usize], node: usize) -> usize
    ensures { result ≡ slice_index numbers.now node }
{
    match numbers.get(node) {
        Some(number) => *number,
        None => 0,
    }
}

/// Whether no edge of a node leads to a lesser number.
fn rises(numbers: &[usize], least: usize, row: &[usize]) -> bool
    ensures { IsTrue result → All (λ to. least ≤ slice_index numbers.now to) row.now }
{
    for to in row {
        if number(numbers, *to) < least {
            return false;
        }
    }
    true
}

/// Whether no edge of the graph leads to a lesser number.
fn all_rise(graph: &Graph, numbers: &[usize]) -> bool
    ensures { IsTrue result → ((a b : ℕ) → HasEdge graph.now a b → slice_index numbers.now a ≤
        slice_index numbers.now b) }
{
    for node in 0..graph.size() {
        if !rises(numbers, number(numbers, node), graph.row(node)) {
            return false;
        }
    }
    true
}

/// Whether an edge of a node leads to this number.
fn stays(numbers: &[usize], level: usize, row: &[usize]) -> bool
    ensures { result ≡ list_any (λ to. slice_index numbers.now to == level) row.now }
{
    row.iter().any(|to| number(numbers, *to) == level)
}

/// Marks the nodes that have an edge to a node of the same number, or all nodes where an edge leads
/// to a lesser number. Around a circle the number can only stay.
fn suspects(alloc: Global, graph: &Graph, numbers: &[usize]) -> Result<Vec<bool>, OutOfMemory>
    ensures size { IfOk result (λ marks. length marks.items ≡ length graph.now) }
    ensures marks { IfOk result (λ marks. MarksRounds marks.items graph.now) }
{
    let rising = all_rise(graph, numbers);
    let mut marks = Vec::new(alloc);
    for node in 0..graph.size() {
        let level = stays(numbers, number(numbers, node), graph.row(node));
        marks.push(!rising || level)?;
    }
    Ok(marks)
}

impl Cycles {
    pub fn new(alloc: Global, graph: Graph) -> Result<Cycles, OutOfMemory>
        ensures { IfOk result (λ c. c ≡ graph) }
    {
        let numbers = numbers(alloc, &graph)?;
        let suspects = suspects(alloc, &graph, numbers.as_slice())?;
        Ok(Cycles { graph, suspects })
    }

    /// Whether a node reaches itself. It answers at once for a node that does not, and else in time
    /// in proportion to the nodes and edges that the node reaches.
    pub fn comes_back(&self, alloc: Global, node: usize) -> Result<bool, OutOfMemory>
        requires { node < length self.now }
        ensures { IfOk result (λ back. IsTrue back ↔ Reaches self.now node node) }
    {
        if !is_marked(self.suspects.as_slice(), node) {
            return Ok(false);
        }
        let marks = self.graph.reached(alloc, self.graph.row(node))?;
        Ok(is_marked(marks.as_slice(), node))
    }
}
