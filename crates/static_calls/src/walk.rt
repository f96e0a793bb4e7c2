//! Walks through a graph, and numbers for its nodes that rise along edges from one circle of nodes
//! to the next. What the numbers are worth is for `cycles` to check: no clause here says it.

ghost use Rattle.std.specs.Prelude.{◌≡◌, length, IfOk};

use crate::graph::Graph;
use out_of_memory::OutOfMemory;
use std::alloc::Global;

/// What a walk meets: for each node the number of the turn in which it was entered, or the size of
/// the graph, and the nodes in the order in which they were left.
#[derive(Drop)]
struct Walk {
    turns: Vec<usize>,
    left: Vec<usize>,
}

/// Enters a node in a turn; whether it was not entered before.
fn enter(turns: &mut [usize], node: usize, turn: usize) -> bool {
    let unmet = turns.len();
    if node < turns.len() && turns[node] == unmet {
        turns[node] = turn;
        return true;
    }
    false
}

/// Walks on from a node, in depth, to the nodes that were not entered before. The path is empty.
fn walk_along(
    graph: &Graph,
    walk: &mut Walk,
    path: &mut Vec<(usize, usize)>,
    start: usize,
    turn: usize,
) -> Result<(), OutOfMemory> {
    if enter(walk.turns.as_mut_slice(), start, turn) {
        path.push((start, 0))?;
    }
    for _step in 0..usize::MAX {
        let Some((node, next)) = path.pop() else {
            return Ok(());
        };
        match graph.row(node).get(next) {
            None => walk.left.push(node)?,
            Some(&to) => {
                path.push((node, next + 1))?;
                if enter(walk.turns.as_mut_slice(), to, turn) {
                    path.push((to, 0))?;
                }
            }
        }
    }
    Ok(())
}

/// Walks on from a node, in depth, to the nodes that were not entered before.
fn walk_from(
    alloc: Global,
    graph: &Graph,
    walk: &mut Walk,
    start: usize,
    turn: usize,
) -> Result<(), OutOfMemory> {
    let mut path = Vec::new(alloc);
    walk_along(graph, walk, &mut path, start, turn)
}

/// Walks from one start after the other.
fn walk_all(alloc: Global, graph: &Graph, starts: &[usize]) -> Result<Walk, OutOfMemory> {
    let mut walk = Walk {
        turns: vec![in alloc; graph.size(); graph.size()]?,
        left: Vec::new(alloc),
    };
    for (turn, start) in starts.iter().enumerate() {
        walk_from(alloc, graph, &mut walk, *start, turn)?;
    }
    Ok(walk)
}

/// Numbers for the nodes: nodes that reach one another have the same, and along other edges the
/// number rises. A walk goes through the graph, and a second one through the turned graph, from the
/// nodes in the order in which the first left them, the last first.
pub fn numbers(alloc: Global, graph: &Graph) -> Result<Vec<usize>, OutOfMemory> {
    let nodes: Vec<usize> = (0..graph.size()).collect(alloc)?;
    let mut order = walk_all(alloc, graph, nodes.as_slice())?.left;
    order.reverse();
    let turned = graph.turned(alloc)?;
    let numbered = walk_all(alloc, &turned, order.as_slice())?;
    Ok(numbered.turns)
}
