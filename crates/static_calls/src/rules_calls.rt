//! What is reached by calls: no routine reaches itself, and no handler reaches a wait.
//!
//! `specs/Calls.antt` says which routines statements call and which statements wait, and
//! `specs/Reaching.antt` what is reached, by the places where names are declared. The code gives
//! the routines numbers, and asks the graph of their calls.

ghost use Rattle.std.specs.Prelude.{◌≡◌, IfOk, [], length};
ghost use Rattle.syntax_tree.specs.Placed.{placed};
ghost use Rattle.static_rule.specs.First.{IsFirstOf};
ghost use Rattle.syntax_tree.specs.Parts.{routines as routines_of, processes as processes_of};
ghost use Rattle.static_calls.specs.Graph.{HasEdges};
ghost use Rattle.static_calls.specs.Reaching.{ReachFails};
ghost use Rattle.static_calls.specs.Tables.{declared_in, seen_routines, seen_processes, places, edges_of, OneComesBack};

use crate::handlers::first_waiting;
use crate::numbers::{RoutineIndex, numbers};
use crate::rounds::first_round;
use crate::routines::{processes, routines};
use crate::rules_calls_graph::{call_graph, coming_to_wait};
use crate::{Cycles, Graph};
use out_of_memory::OutOfMemory;
use static_declarations::Declarations;
use static_rule::{Violation, sooner};
use std::alloc::Global;
use syntax_tree::{Process, Routine};

/// The first routine that reaches itself in the graph of calls.
fn first_circle(
    alloc: Global,
    numbers: &RoutineIndex,
    graph: Graph,
    routines: &[&Routine],
) -> Result<Option<Violation>, OutOfMemory>
    requires { length graph ≡ length numbers.now.keys }
    ensures { IfOk result (λ first. IsFirstOf
        (OneComesBack numbers.now.keys graph (seen_routines routines.now)) first) }
{
    let cycles = Cycles::new(alloc, graph)?;
    first_round(alloc, numbers, &cycles, routines)
}

/// The first failure, the graph of calls being made.
fn first_in_graph(
    alloc: Global,
    declarations: &Declarations<'_>,
    numbers: &RoutineIndex,
    graph: Graph,
    routines: &[&Routine],
    processes: &[&Process],
) -> Result<Option<Violation>, OutOfMemory>
    requires routines { seen_routines routines.now ≡ routines_of (placed declarations.now).decls }
    requires processes { seen_processes processes.now ≡
        processes_of (placed declarations.now).decls }
    requires numbers { numbers.now.keys ≡ places (seen_routines routines.now) }
    requires size { length graph ≡ length numbers.now.keys }
    requires edges { HasEdges graph (edges_of (declared_in (placed declarations.now))
        numbers.now.keys (seen_routines routines.now) []) }
    ensures { IfOk result (λ first. IsFirstOf (ReachFails (placed declarations.now)) first) }
{
    let marks = coming_to_wait(alloc, &graph, numbers, routines)?;
    let round = first_circle(alloc, numbers, graph, routines)?;
    let waiting = first_waiting(alloc, declarations, numbers, marks.as_slice(), processes)?;
    Ok(sooner(round, waiting))
}

/// The first failure, the routines and processes being listed.
fn first_among(
    alloc: Global,
    declarations: &Declarations<'_>,
    routines: &[&Routine],
    processes: &[&Process],
) -> Result<Option<Violation>, OutOfMemory>
    requires routines { seen_routines routines.now ≡ routines_of (placed declarations.now).decls }
    requires processes { seen_processes processes.now ≡
        processes_of (placed declarations.now).decls }
    ensures { IfOk result (λ first. IsFirstOf (ReachFails (placed declarations.now)) first) }
{
    let numbers = numbers(alloc, routines)?;
    let graph = call_graph(alloc, declarations, &numbers, routines)?;
    first_in_graph(alloc, declarations, &numbers, graph, routines, processes)
}

/// The first failure of the rules 31 and 35: a routine reaches itself by calls, at its name; a
/// handler reaches a wait, at the name of its process.
pub fn first_broken(
    alloc: Global,
    declarations: &Declarations<'_>,
) -> Result<Option<Violation>, OutOfMemory>
    ensures { IfOk result (λ first. IsFirstOf (ReachFails (placed declarations.now)) first) }
{
    let decls = declarations.program().decls.as_slice();
    let list = routines(alloc, decls)?;
    let processes = processes(alloc, decls)?;
    first_among(alloc, declarations, list.as_slice(), processes.as_slice())
}
