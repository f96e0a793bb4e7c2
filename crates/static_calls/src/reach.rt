//! What some nodes of a graph reach.

ghost use Rattle.std.specs.Prelude.{◌≡◌, ℕ, true, ◌<◌, ◌↔◌, [], ◌∷◌, length, IfOk, OnOk, All};
ghost use Rattle.static_calls.specs.Graph.{marked, IsReached, ReachesOne};
ghost use Rattle.static_calls.specs.Marks.{AreListed, AreMarked, AreSpread};

use crate::graph::Graph;
use out_of_memory::OutOfMemory;
use std::alloc::Global;

/// Whether a node is marked.
pub fn is_marked(marks: &[bool], node: usize) -> bool
    ensures { result ≡ marked marks.now node }
{
    match marks.get(node) {
        Some(mark) => *mark,
        None => false,
    }
}

/// Marks a node and lists it, unless it is marked.
fn mark(marks: &mut [bool], found: &mut Vec<usize>, node: usize) -> Result<(), OutOfMemory>
    requires { node < length marks.old }
    ensures { OnOk result (AreMarked marks.old found.old.items
        (node ∷ []) marks.new found.new.items) }
{
    if !marks[node] {
        marks[node] = true;
        found.push(node)?;
    }
    Ok(())
}

/// Marks nodes and lists them, apart from those that are marked.
fn mark_all(marks: &mut [bool], found: &mut Vec<usize>, nodes: &[usize]) -> Result<(), OutOfMemory>
    requires { All (λ node. node < length marks.old) nodes.now }
    ensures { OnOk result (AreMarked marks.old found.old.items nodes.now marks.new
        found.new.items) }
{
    for node in nodes {
        mark(marks, found, *node)?;
    }
    Ok(())
}

impl Graph {
    /// Marks and lists what the nodes that are listed reach.
    fn spread(&self, marks: &mut [bool], found: &mut Vec<usize>) -> Result<(), OutOfMemory>
        requires size { length marks.old ≡ length self.now }
        requires listed { AreListed marks.old found.old.items }
        ensures { OnOk result (AreSpread self.now marks.old marks.new) }
    {
        for turn in 0..self.size() {
            let Some(&node) = found.get(turn) else {
                return Ok(());
            };
            mark_all(marks, found, self.row(node))?;
        }
        Ok(())
    }

    /// For each node whether it is one of the starts, or one of them reaches it.
    pub fn reached(&self, alloc: Global, starts: &[usize]) -> Result<Vec<bool>, OutOfMemory>
        requires { All (λ start. start < length self.now) starts.now }
        ensures size { IfOk result (λ marks. length marks.items ≡ length self.now) }
        ensures reached { IfOk result (λ marks. (node : ℕ) →
            (marked marks.items node ≡ true) ↔ IsReached self.now starts.now node) }
    {
        let mut marks = vec![in alloc; false; self.size()]?;
        let mut found = Vec::new(alloc);
        mark_all(&mut marks, &mut found, starts)?;
        self.spread(&mut marks, &mut found)?;
        Ok(marks)
    }

    /// For each node whether it is one of the ends, or reaches one of them.
    pub fn reaching(&self, alloc: Global, ends: &[usize]) -> Result<Vec<bool>, OutOfMemory>
        requires { All (λ end. end < length self.now) ends.now }
        ensures size { IfOk result (λ marks. length marks.items ≡ length self.now) }
        ensures reaching { IfOk result (λ marks. (node : ℕ) →
            (marked marks.items node ≡ true) ↔ ReachesOne self.now ends.now node) }
    {
        let turned = self.turned(alloc)?;
        let marks = turned.reached(alloc, ends)?;
        Ok(marks)
    }
}
