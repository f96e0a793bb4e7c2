//! The graph of the calls of a program.

ghost use Rattle.std.specs.Prelude.{◌≡◌, ℕ, true, ◌↔◌, IfOk, [], length};
ghost use Rattle.syntax_tree.specs.Placed.{placed};
ghost use Rattle.static_calls.specs.Graph.{HasEdges, ReachesOne, marked};
ghost use Rattle.static_calls.specs.Tables.{declared_in, seen_routines, edges_of, waiters as waiters_of};

use crate::Graph;
use crate::numbers::{RoutineIndex, edges, waiters};
use out_of_memory::OutOfMemory;
use static_declarations::Declarations;
use std::alloc::Global;
use syntax_tree::Routine;

/// The graph of the calls of routines, by their numbers.
pub fn call_graph(
    alloc: Global,
    declarations: &Declarations<'_>,
    numbers: &RoutineIndex,
    routines: &[&Routine],
) -> Result<Graph, OutOfMemory>
    ensures size { IfOk result (λ g. length g ≡ length numbers.now.keys) }
    ensures edges { IfOk result (λ g. HasEdges g
        (edges_of (declared_in (placed declarations.now)) numbers.now.keys
        (seen_routines routines.now) [])) }
{
    let edges = edges(alloc, declarations, numbers, routines)?;
    let graph = Graph::new(alloc, numbers.len(), edges.as_slice())?;
    Ok(graph)
}

/// Marks the routines that come to a wait.
pub fn coming_to_wait(
    alloc: Global,
    graph: &Graph,
    numbers: &RoutineIndex,
    routines: &[&Routine],
) -> Result<Vec<bool>, OutOfMemory>
    requires { length graph.now ≡ length numbers.now.keys }
    ensures { IfOk result (λ marks. (node : ℕ) →
        (marked marks.items node ≡ true) ↔ ReachesOne graph.now
        (waiters_of numbers.now.keys (seen_routines routines.now) []) node) }
{
    let waiters = waiters(alloc, numbers, routines)?;
    let marks = graph.reaching(alloc, waiters.as_slice())?;
    Ok(marks)
}
