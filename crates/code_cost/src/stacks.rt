//! Stacks that are too large.

ghost use Rattle.std.specs.Prelude.{◌≡◌, ◌+◌, List, None, map};
ghost use Rattle.syntax_tree.specs.Placed.{placed, placed_decl, placed_process, placed_routine, plain};
ghost use Rattle.static_rule.specs.Parts.{noted};
ghost use Rattle.code_names.specs.Texts.{owner_of};
ghost use Rattle.code_cost.specs.Told.{Part, over_stack, parts_from, process_over, routine_over, routine_parts, stack_rules};

use crate::Measures;
use code_names::{Body, Numbering, RoutineOwner};
use static_rule::{Violation, blame, rule};
use syntax_tree::{Declaration, Place, Process, Routine};

/// A stack has at most so many words.
const MOST_WORDS: u64 = 4096;

/// The place, where a stack of so many words and so many more is too large.
fn over(place: Place, words: u64, more: u64) -> Option<Place>
    ensures { result ≡ over_stack place (words + more) }
{
    if words.saturating_add(more) > MOST_WORDS {
        Some(place)
    } else {
        None
    }
}

/// The place of a routine or an entry, where it takes too many words by itself.
fn large_routine(
    numbering: &Numbering<'_>,
    measures: &Measures,
    owner: RoutineOwner,
    routine: &Routine,
) -> Option<Place>
    ensures { result ≡ routine_over (plain (placed numbering.now)) measures.now
        (record { owner = owner_of owner; routine = placed_routine routine.now }) }
{
    let number = numbering.number(Body { owner, routine });
    let row = measures.routines.get(number)?;
    over(routine.place, row.words, row.height)
}

/// The place of a process, where its stack is too large.
fn large_process(measures: &Measures, number: usize, process: &Process) -> Option<Place>
    ensures { result ≡ process_over measures.now number (placed_process process.now) }
{
    let size = measures.processes.get(number)?;
    over(process.place, size.stack, 0)
}

/// Tries routines of one owner.
fn try_routines(
    first: &mut Option<Violation>,
    numbering: &Numbering<'_>,
    measures: &Measures,
    owner: RoutineOwner,
    routines: &[Routine],
)
    ensures { let rules = stack_rules (plain (placed numbering.now)) measures.now in
        (more : List Part) → noted rules first.new more ≡
        noted rules first.old (routine_parts (owner_of owner)
        (map placed_routine routines.now) more) }
{
    for routine in routines {
        blame(
            first,
            rule::LARGE_STACK,
            large_routine(numbering, measures, owner, routine),
        );
    }
}

/// The stack that is too large and comes first, if there is any.
pub fn first_large(
    numbering: &Numbering<'_>,
    measures: &Measures,
    decls: &[Declaration],
) -> Option<Violation>
    ensures { result ≡ noted (stack_rules (plain (placed numbering.now)) measures.now) None
        (parts_from 0 0 (map placed_decl decls.now)) }
{
    let mut first = None;
    let mut processes = 0;
    let mut monitors = 0;
    for decl in decls {
        match decl {
            Declaration::Const { .. } | Declaration::Device { .. } | Declaration::Event { .. } => {}
            Declaration::Routine(routine) => {
                let place = large_routine(numbering, measures, RoutineOwner::Program, routine);
                blame(&mut first, rule::LARGE_STACK, place);
            }
            Declaration::Monitor(monitor) => {
                let owner = RoutineOwner::Monitor(monitors);
                let entries = monitor.entries.as_slice();
                try_routines(&mut first, numbering, measures, owner, entries);
                monitors += 1;
            }
            Declaration::Process(process) => {
                let owner = RoutineOwner::Process(processes);
                let place = large_process(measures, processes, process);
                blame(&mut first, rule::LARGE_STACK, place);
                let routines = process.routines.as_slice();
                try_routines(&mut first, numbering, measures, owner, routines);
                processes += 1;
            }
        }
    }
    first
}
