//! Numbers for the routines of a program, and the graph of their calls.

ghost use Rattle.std.specs.Prelude.{◌≡◌, ℕ, ◌<◌, OnOk, IfOk, IfSome, List, [], ◌++◌, length};
ghost use Rattle.indexmap.specs.IndexSet.{insert_key};
ghost use Rattle.syntax_tree.specs.Placed.{placed, placed_routine};
ghost use Rattle.static_names.specs.Findings.{same_key, key_of};
ghost use Rattle.static_calls.specs.Tables.{declared_in, seen_routines, places, number as number_of, edge_to, edges_to, routine_edges, edges_of, waiters as waiters_of};

use crate::calls::routine_calls;
use crate::waits::stmts_wait;
use indexmap::IndexSet;
use out_of_memory::OutOfMemory;
use static_declarations::Declarations;
use std::alloc::Global;
use syntax_tree::{Place, Routine};

/// Places of routines, each by line and column. The number of a routine is its index.
pub type RoutineIndex = IndexSet<(u32, u32)>;

/// Gives the routines whose names stand at a place a number, unless they have one.
fn add(numbers: &mut RoutineIndex, place: Place) -> Result<(), OutOfMemory>
    ensures { OnOk result (numbers.new.keys ≡ insert_key same_key numbers.old.keys (key_of place)) }
{
    numbers.insert((place.line, place.col))?;
    Ok(())
}

/// Gives each routine a number; routines of one place have one number.
pub fn numbers(alloc: Global, routines: &[&Routine]) -> Result<RoutineIndex, OutOfMemory>
    ensures { IfOk result (λ numbers. numbers.keys ≡ places (seen_routines routines.now)) }
{
    let mut numbers = RoutineIndex::new(alloc);
    for routine in routines {
        add(&mut numbers, routine.place)?;
    }
    Ok(numbers)
}

/// The number of the routines whose names stand at a place.
pub fn number(numbers: &RoutineIndex, place: Place) -> Option<usize>
    ensures number { result ≡ number_of numbers.now.keys place }
    ensures within { IfSome result (λ n. n < length numbers.now.keys) }
{
    numbers.get_index_of(&(place.line, place.col))
}

/// Adds the edge from a number to that of a callee, if it has one.
fn add_edge(
    edges: &mut Vec<(usize, usize)>,
    numbers: &RoutineIndex,
    from: usize,
    callee: Place,
) -> Result<(), OutOfMemory>
    ensures { OnOk result ((more : List (ℕ × ℕ)) → edges.new.items ++ more ≡ edges.old.items ++
        edge_to from (number_of numbers.now.keys callee) more) }
{
    if let Some(to) = number(numbers, callee) {
        edges.push((from, to))?;
    }
    Ok(())
}

/// Adds the edges from a number to those of the callees.
fn add_edges(
    edges: &mut Vec<(usize, usize)>,
    numbers: &RoutineIndex,
    from: usize,
    calls: &[Place],
) -> Result<(), OutOfMemory>
    ensures { OnOk result ((more : List (ℕ × ℕ)) → edges.new.items ++ more ≡ edges.old.items ++
        edges_to numbers.now.keys from calls.now more) }
{
    for callee in calls {
        add_edge(edges, numbers, from, *callee)?;
    }
    Ok(())
}

/// Adds the edges of the calls of a routine.
fn add_routine(
    alloc: Global,
    edges: &mut Vec<(usize, usize)>,
    declarations: &Declarations<'_>,
    numbers: &RoutineIndex,
    routine: &Routine,
) -> Result<(), OutOfMemory>
    ensures { OnOk result ((more : List (ℕ × ℕ)) → edges.new.items ++ more ≡ edges.old.items ++
        routine_edges (declared_in (placed declarations.now)) numbers.now.keys
        (placed_routine routine.now) more) }
{
    if let Some(from) = number(numbers, routine.place) {
        let calls = routine_calls(alloc, declarations, routine)?;
        add_edges(edges, numbers, from, calls.as_slice())?;
    }
    Ok(())
}

/// The edges of all calls of the routines.
pub fn edges(
    alloc: Global,
    declarations: &Declarations<'_>,
    numbers: &RoutineIndex,
    routines: &[&Routine],
) -> Result<Vec<(usize, usize)>, OutOfMemory>
    ensures { IfOk result (λ edges. edges.items ≡
        edges_of (declared_in (placed declarations.now)) numbers.now.keys
        (seen_routines routines.now) []) }
{
    let mut edges = Vec::new(alloc);
    for routine in routines {
        add_routine(alloc, &mut edges, declarations, numbers, routine)?;
    }
    Ok(edges)
}

/// The numbers of the routines that wait.
pub fn waiters(
    alloc: Global,
    numbers: &RoutineIndex,
    routines: &[&Routine],
) -> Result<Vec<usize>, OutOfMemory>
    ensures { IfOk result (λ waiters. waiters.items ≡
        waiters_of numbers.now.keys (seen_routines routines.now) []) }
{
    let mut waiters = Vec::new(alloc);
    for routine in routines {
        if stmts_wait(routine.body.as_slice()) {
            if let Some(number) = number(numbers, routine.place) {
                waiters.push(number)?;
            }
        }
    }
    Ok(waiters)
}
