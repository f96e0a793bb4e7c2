//! Handlers that reach a wait.

ghost use Rattle.std.specs.Prelude.{◌≡◌, None, IfOk, [], ◌∷◌};
ghost use Rattle.syntax_tree.specs.Placed.{optional, placed, placed_stmts, placed_handler};
ghost use Rattle.std.specs.List.{list_any};
ghost use Rattle.static_rule.specs.Parts.{noted};
ghost use Rattle.static_calls.specs.Tables.{declared_in, seen_processes, is_marked_place, come_to_wait as come_to_wait_of, handler_fault as handler_fault_of, handler_rule};

use crate::calls::calls_of;
use crate::is_marked;
use crate::numbers::{RoutineIndex, number};
use crate::waits::stmts_wait;
use out_of_memory::OutOfMemory;
use static_declarations::Declarations;
use static_rule::{Violation, blame, rule};
use std::alloc::Global;
use syntax_tree::{Handler, Place, Process, Stmt};

/// Whether the routines whose names stand at a place are marked.
pub fn is_marked_at(numbers: &RoutineIndex, marks: &[bool], place: Place) -> bool
    ensures { result ≡ is_marked_place numbers.now.keys marks.now place }
{
    match number(numbers, place) {
        Some(node) => is_marked(marks, node),
        None => false,
    }
}

/// Whether one of the routines is marked.
fn any_marked(numbers: &RoutineIndex, marks: &[bool], calls: &[Place]) -> bool
    ensures { result ≡ list_any (is_marked_place numbers.now.keys marks.now) calls.now }
{
    calls
        .iter()
        .any(|callee| is_marked_at(numbers, marks, *callee))
}

/// Whether statements wait, or call a routine that is marked.
fn come_to_wait(
    alloc: Global,
    declarations: &Declarations<'_>,
    numbers: &RoutineIndex,
    marks: &[bool],
    list: &[Stmt],
) -> Result<bool, OutOfMemory>
    ensures { IfOk result (λ waits. waits ≡ come_to_wait_of
        (declared_in (placed declarations.now)) numbers.now.keys marks.now
        (placed_stmts list.now)) }
{
    if stmts_wait(list) {
        return Ok(true);
    }
    let calls = calls_of(alloc, declarations, list)?;
    Ok(any_marked(numbers, marks, calls.as_slice()))
}

/// The place of a process whose handler reaches a wait.
fn handler_fault(
    alloc: Global,
    declarations: &Declarations<'_>,
    numbers: &RoutineIndex,
    marks: &[bool],
    place: Place,
    handler: &Option<Handler>,
) -> Result<Option<Place>, OutOfMemory>
    ensures { IfOk result (λ fault. fault ≡ handler_fault_of
        (declared_in (placed declarations.now)) numbers.now.keys marks.now place
        (optional placed_handler handler.now)) }
{
    let Some(handler) = handler else {
        return Ok(None);
    };
    if come_to_wait(alloc, declarations, numbers, marks, handler.body.as_slice())? {
        Ok(Some(place))
    } else {
        Ok(None)
    }
}

/// The first process whose handler reaches a wait, where the routines are marked that come to one.
pub fn first_waiting(
    alloc: Global,
    declarations: &Declarations<'_>,
    numbers: &RoutineIndex,
    marks: &[bool],
    processes: &[&Process],
) -> Result<Option<Violation>, OutOfMemory>
    ensures { IfOk result (λ first. first ≡ noted
        (handler_rule (declared_in (placed declarations.now)) numbers.now.keys marks.now ∷ []) None
        (seen_processes processes.now)) }
{
    let mut first = None;
    for process in processes {
        let fault = handler_fault(
            alloc,
            declarations,
            numbers,
            marks,
            process.place,
            &process.handler,
        )?;
        blame(&mut first, rule::WRONG_HANDLER, fault);
    }
    Ok(first)
}
