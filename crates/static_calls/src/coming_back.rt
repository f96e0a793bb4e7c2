//! By which of its calls a routine reaches itself.

ghost use Rattle.std.specs.Prelude.{◌≡◌, IfOk, find, if◌then◌else◌};
ghost use Rattle.syntax_tree.specs.Placed.{placed, placed_routine};
ghost use Rattle.syntax_tree.specs.Parts.{same_place, routines as routines_of};
ghost use Rattle.static_calls.specs.Reaching.{IsWayBack};
ghost use Rattle.static_calls.specs.Tables.{declared_in, seen_routines, places, is_marked_place, marked_call as marked_call_of, marked_call_at as marked_call_at_of};

use crate::calls::routine_calls;
use crate::handlers::is_marked_at;
use crate::numbers::{RoutineIndex, number, numbers};
use crate::routines::routines;
use crate::rules_calls_graph::call_graph;
use out_of_memory::OutOfMemory;
use static_declarations::Declarations;
use std::alloc::Global;
use syntax_tree::{Place, Routine};

/// The first of the callees that is marked.
fn first_marked(numbers: &RoutineIndex, marks: &[bool], calls: &[Place]) -> Option<Place>
    ensures { result ≡ find (is_marked_place numbers.now.keys marks.now) calls.now }
{
    calls
        .iter()
        .copied()
        .find(|callee| is_marked_at(numbers, marks, *callee))
}

/// The first of the routines that a routine calls which is marked, if its name stands at the place.
fn marked_call(
    alloc: Global,
    declarations: &Declarations<'_>,
    numbers: &RoutineIndex,
    marks: &[bool],
    place: Place,
    routine: &Routine,
) -> Result<Option<Place>, OutOfMemory>
    ensures { IfOk result (λ callee. callee ≡
        (if same_place routine.now.place place then
        marked_call_of (declared_in (placed declarations.now)) numbers.now.keys marks.now
        (placed_routine routine.now) else None)) }
{
    if routine.place != place {
        return Ok(None);
    }
    let calls = routine_calls(alloc, declarations, routine)?;
    Ok(first_marked(numbers, marks, calls.as_slice()))
}

/// The same of the first of the routines at the place that calls one.
fn marked_call_at(
    alloc: Global,
    declarations: &Declarations<'_>,
    numbers: &RoutineIndex,
    marks: &[bool],
    place: Place,
    routines: &[&Routine],
) -> Result<Option<Place>, OutOfMemory>
    ensures { IfOk result (λ callee. callee ≡ marked_call_at_of
        (declared_in (placed declarations.now)) numbers.now.keys marks.now place
        (seen_routines routines.now)) }
{
    for routine in routines {
        let callee = marked_call(alloc, declarations, numbers, marks, place, routine)?;
        if callee.is_some() {
            return Ok(callee);
        }
    }
    Ok(None)
}

/// By which call a routine reaches itself, the routines being numbered.
fn way_among(
    alloc: Global,
    declarations: &Declarations<'_>,
    numbers: &RoutineIndex,
    routines: &[&Routine],
    place: Place,
) -> Result<Option<Place>, OutOfMemory>
    requires routines { seen_routines routines.now ≡ routines_of (placed declarations.now).decls }
    requires numbers { numbers.now.keys ≡ places (seen_routines routines.now) }
    ensures { IfOk result (λ callee. IsWayBack (placed declarations.now) place callee) }
{
    let Some(node) = number(numbers, place) else {
        return Ok(None);
    };
    let graph = call_graph(alloc, declarations, numbers, routines)?;
    let marks = graph.reaching(alloc, &[node])?;
    marked_call_at(
        alloc,
        declarations,
        numbers,
        marks.as_slice(),
        place,
        routines,
    )
}

/// By the call of which routine one whose name stands at the place reaches itself: the first of its
/// calls that comes back, by the place of the callee's name. `None` where no routine at the place
/// reaches itself.
pub fn way_back(
    alloc: Global,
    declarations: &Declarations<'_>,
    place: Place,
) -> Result<Option<Place>, OutOfMemory>
    ensures { IfOk result (λ callee. IsWayBack (placed declarations.now) place callee) }
{
    let list = routines(alloc, declarations.program().decls.as_slice())?;
    let numbers = numbers(alloc, list.as_slice())?;
    way_among(alloc, declarations, &numbers, list.as_slice(), place)
}
